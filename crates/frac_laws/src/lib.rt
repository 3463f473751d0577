//! Exact fractions, the whole-number formulas of the ledgers, and the laws of both.
#![tactic(auto)]

mod closed_checks;
mod floor_laws;
mod ledger_laws;
mod norm_laws;
mod order_laws;
mod polynomial_laws;
mod quotient_laws;
mod ratio;
mod ring_laws;
mod size_laws;
mod sum_laws;
mod worked_calls;

pub use closed_checks::{long_quotients_are_ordered, product_of_ten_terms, third_taylor_value};
pub use floor_laws::{
    ceiling_is_at_least, ceiling_is_least, ceiling_minus_one_is_below, floor_is_at_most,
    floor_is_greatest, floor_plus_one_is_above,
};
pub use ledger_laws::{
    bound_has_scale, rounded_up_is_at_least, rounded_up_is_within_one, scale_is_unique,
};
pub use norm_laws::{
    norm_of_image, norm_of_matrix_multiple, norm_of_matrix_sum, norm_of_multiple, norm_of_sum,
    number_within_norm,
};
pub use order_laws::{
    below_is_not_at_least, greater_is_least_upper_bound, lesser_is_greatest_lower_bound,
    order_is_antisymmetric, order_is_reflexive, order_is_total, order_is_transitive,
    positive_factors_cancel, products_keep_order, products_keep_strict_order, sums_keep_order,
    sums_keep_strict_order,
};
pub use polynomial_laws::{
    denominator_is_factor, multiples_stay_multiples, polynomials_keep_length,
    polynomials_take_values, shifts_and_stretches_compose,
};
pub use quotient_laws::{
    quotients_add, quotients_add_over_one_divisor, quotients_are_below_by_cross,
    quotients_are_equal_by_cross, quotients_cancel, quotients_compare_by_cross,
    quotients_have_opposites, quotients_multiply, quotients_times_divisor, whole_numbers_add,
    whole_numbers_compare, whole_numbers_multiply,
};
pub use ratio::Ratio;
pub use ring_laws::{
    difference_is_sum, division_undoes_product, one_times_is_same, opposites_cancel,
    products_associate, products_commute, products_distribute, sums_associate, sums_commute,
    zero_adds_nothing,
};
pub use size_laws::{
    size_is_not_negative, size_is_within, size_of_opposite, size_of_product, size_of_sum,
};
pub use sum_laws::{
    convolution_has_total, convolution_is_within_totals, numbers_of_list_product, powers_add,
    powers_of_products, powers_sum, size_of_sum_is_within_sizes, sum_of_multiples, sum_of_one_term,
    sum_of_sums, sums_exchange, tail_of_eighths_is_small, total_of_list_product,
};
pub use worked_calls::{
    bound_is_divided, difference_of_squares, eighths_make_a_quarter, equations_are_used,
    floor_in_units_is_within_one, growth_keeps_order, middle_is_half_way,
    products_distribute_over_sum, sum_of_sizes_is_not_negative, thirds_make_it_strict,
};

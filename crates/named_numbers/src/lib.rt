//! The named numbers of the product: limits, units and lengths of time, once as definitions and once for programs.
#![tactic(auto)]

mod numbers;

pub use numbers::{
    BERNSTEIN_UNIT, CELL_ROUNDING, CELLS_OF_HALF_YEAR, CELLS_OF_MONTH, CELLS_OF_TWO_YEARS,
    CELLS_OF_YEAR, LEAST_DEGREE, LONGEST_PRODUCT_NAME, LONGEST_STATE_NAME, MONTHS_OF_YEAR,
    MOST_AMOUNT, MOST_BOUND, MOST_COEFFICIENT, MOST_DENOMINATOR, MOST_EVERY, MOST_FILE_BYTES,
    MOST_LUMP, MOST_MONTHS, MOST_STATES, PAY_UNIT, named_numbers_agree,
};

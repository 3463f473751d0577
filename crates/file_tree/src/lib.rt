//! Typed look-ups in the tree of a product file, and its keys in one table.
#![tactic(auto)]

mod head;
mod keys;
mod names;
mod numbers;
mod parts;
mod premium;
mod table;
#[cfg(test)]
mod tests;
mod within;

pub use head::{is_format_1, is_from_to, natural_part, term};
pub use keys::{
    Key, Kind, constant_step_keys, has_key, has_keys, has_no_other_key, is_table_of, lump_keys,
    piece_keys, premium_keys, sojourn_keys, top_keys, transition_keys,
};
pub use names::{has_name, has_state, state_at, state_index, state_of, states};
pub use numbers::{amount_of, month_of, piece_coefficients};
pub use parts::{
    curve, has_pair, lumps, pair_of, sojourns, start_of, steps_of, sum_of, transitions,
};
pub use premium::{has_payer, has_premium, payer_index, payer_state, payers, premium_whole};
pub use table::{is_absent, item, items_before, items_of, text_in, text_of, whole_of};
pub use within::{is_absent_within, items_within, natural_within, whole_within};

//! Rules 13 and 14: the premium pattern.

ghost use Rattle.std.specs.Prelude.{◌≡◌, ◌<◌, IfSome, length, None};
ghost use Rattle.toml.specs.View.{table_view};
ghost use Rattle.product_file.specs.Checks.{first_failed};
ghost use Rattle.product_file.specs.HeadRules.{rule_3};
ghost use Rattle.product_file.specs.PatternRules.{payer_items, is_good_payer, payer_checks, rule_13, rule_14};

use crate::head::first_false;
use file_tree::{
    has_payer, has_premium, is_absent, is_from_to, item, items_before, payer_index, payer_state,
    payers, premium_whole, whole_of,
};
use named_numbers::MOST_EVERY;
use toml::Table;

// The largest number of months from one premium to the next.
const LONGEST_WAIT: i64 = MOST_EVERY as i64;

// Whether the payer at a place is a string that names a state and differs from the earlier ones.
fn is_good_payer(tree: &Table, i: usize) -> bool
    requires { i < length (payer_items (table_view tree.now)) }
    ensures { result ≡ is_good_payer (table_view tree.now) i }
{
    let values = payers(tree);
    let value = item(values, i);
    let is_new = !has_payer(tree, items_before(values, i), payer_index(tree, value));
    value.is_str() & payer_state(tree, value).is_some() & is_new
}

// The first payer that is not good, and 0 where there is no payer.
fn first_bad_payer(tree: &Table) -> Option<u32>
    requires { first_failed (rule_3 (table_view tree.now)) ≡ None }
    ensures value { result ≡ first_failed
        (payer_checks (table_view tree.now) (length (payer_items (table_view tree.now)))) }
    ensures small { IfSome result (λ i. i < 100) }
{
    let count = payers(tree).len();
    if count == 0 {
        return Some(0);
    }
    for i in 0..count {
        if !is_good_payer(tree, i) {
            return Some(i as u32);
        }
    }
    None
}

/// The first place that breaks rule 13: 0 for the keys and types of the premium table, 1 + i for payer i, and 1 where
/// there is no payer.
pub(crate) fn payer_break(tree: &Table) -> Option<u32>
    requires { first_failed (rule_3 (table_view tree.now)) ≡ None }
    ensures { result ≡ first_failed (rule_13 (table_view tree.now)) }
{
    if is_absent(tree, "premium") {
        return None;
    }
    if !has_premium(tree) {
        return Some(0);
    }
    match first_bad_payer(tree) {
        Some(i) => Some(1 + i),
        None => None,
    }
}

/// The first place that breaks rule 14: 0 for the end of the premiums, and 1 for the months from one to the next.
pub(crate) fn pattern_break(tree: &Table) -> Option<u32>
    ensures { result ≡ first_failed (rule_14 (table_view tree.now)) }
{
    if is_absent(tree, "premium") {
        return None;
    }
    first_false(&[
        is_from_to(1, whole_of(tree, "months"), premium_whole(tree, "until")),
        is_from_to(0, LONGEST_WAIT, premium_whole(tree, "every")),
    ])
}

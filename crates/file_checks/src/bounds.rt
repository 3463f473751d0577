//! Rules 9 and 11: the sizes of coefficients and of amounts.

ghost use Rattle.std.specs.Prelude.{◌≡◌, ◌<◌, ◌≤◌, IfSome, length, map, None};
ghost use Rattle.toml.specs.View.{view, table_view};
ghost use Rattle.named_numbers.specs.Numbers.{most_months};
ghost use Rattle.product_file.specs.Checks.{first_failed, first_failed_from, first_failed_of_lists};
ghost use Rattle.product_file.specs.HeadRules.{rule_3, rule_4};
ghost use Rattle.product_file.specs.TransitionRule.{rule_7, transition_items};
ghost use Rattle.product_file.specs.CurveRules.{rule_8_of, rule_8, rule_9_of, rule_9};
ghost use Rattle.product_file.specs.PaymentRules.{sum_items, steps_items, sojourn_items};
ghost use Rattle.product_file.specs.PaymentRules.{rule_10, steps_rule_11, rule_11};
ghost use Rattle.file_checks.specs.Lists.{AreInOrder};

use crate::held::{is_bounded_piece, is_bounded_step};
use crate::pieces::place;
use file_tree::{curve, item, sojourns, steps_of, sum_of, transitions};
use toml::{Table, Value};

// The first piece of a curve that breaks rule 9.
fn piece_break(tree: &Table, pieces: &[Value]) -> Option<u32>
    requires term { first_failed (rule_4 (table_view tree.now)) ≡ None }
    requires pieces { first_failed (rule_8_of (table_view tree.now) (map view pieces.now)) ≡ None }
    ensures value { result ≡ first_failed (rule_9_of (table_view tree.now) (map view pieces.now)) }
    ensures small { IfSome result (λ i. i ≤ most_months) }
{
    for i in 0..pieces.len() {
        if !is_bounded_piece(tree, pieces, i) {
            return Some(i as u32);
        }
    }
    None
}

/// The first place that breaks rule 9: 4096 times the curve, and the piece.
pub(crate) fn size_break(tree: &Table) -> Option<u32>
    requires names { first_failed (rule_3 (table_view tree.now)) ≡ None }
    requires term { first_failed (rule_4 (table_view tree.now)) ≡ None }
    requires transitions { first_failed (rule_7 (table_view tree.now)) ≡ None }
    requires curves { first_failed_of_lists (rule_8 (table_view tree.now)) ≡ None }
    ensures { result ≡ first_failed_of_lists (rule_9 (table_view tree.now)) }
{
    // the interest, and the rate of each transition
    let count = 1 + transitions(tree).len();
    for k in 0..count {
        if let Some(i) = piece_break(tree, curve(tree, k)) {
            return Some(place(k, i));
        }
    }
    None
}

// The first of some steps that breaks rule 11.
fn step_break(tree: &Table, steps: &[Value]) -> Option<u32>
    requires term { first_failed (rule_4 (table_view tree.now)) ≡ None }
    requires in_order { AreInOrder (table_view tree.now) (map view steps.now) }
    ensures value { result ≡ first_failed (steps_rule_11 (table_view tree.now) (map view steps.now)) }
    ensures small { IfSome result (λ i. i ≤ most_months) }
{
    for i in 0..steps.len() {
        if !is_bounded_step(tree, steps, i) {
            return Some(i as u32);
        }
    }
    None
}

// The first place that breaks rule 11 in the sums of the transitions.
fn sums_break(tree: &Table) -> Option<u32>
    requires names { first_failed (rule_3 (table_view tree.now)) ≡ None }
    requires term { first_failed (rule_4 (table_view tree.now)) ≡ None }
    requires transitions { first_failed (rule_7 (table_view tree.now)) ≡ None }
    requires payments { first_failed_of_lists (rule_10 (table_view tree.now)) ≡ None }
    ensures { result ≡ first_failed_from 0
        (map (λ d. steps_rule_11 (table_view tree.now) (sum_items d)) (transition_items (table_view tree.now))) }
{
    let transitions = transitions(tree);
    for k in 0..transitions.len() {
        if let Some(i) = step_break(tree, sum_of(item(transitions, k))) {
            return Some(place(k, i));
        }
    }
    None
}

// The first place that breaks rule 11 in the sojourns, whose lists come after those of the transitions.
fn sojourns_break(tree: &Table) -> Option<u32>
    requires names { first_failed (rule_3 (table_view tree.now)) ≡ None }
    requires term { first_failed (rule_4 (table_view tree.now)) ≡ None }
    requires transitions { first_failed (rule_7 (table_view tree.now)) ≡ None }
    requires payments { first_failed_of_lists (rule_10 (table_view tree.now)) ≡ None }
    ensures { result ≡ first_failed_from (length (transition_items (table_view tree.now)))
        (map (λ d. steps_rule_11 (table_view tree.now) (steps_items d)) (sojourn_items (table_view tree.now))) }
{
    let transitions = transitions(tree).len();
    let sojourns = sojourns(tree);
    for s in 0..sojourns.len() {
        if let Some(i) = step_break(tree, steps_of(item(sojourns, s))) {
            return Some(place(transitions + s, i));
        }
    }
    None
}

/// The first place that breaks rule 11: 4096 times the list, and the step. List k is the sum of transition k; after the
/// transitions come the sojourns.
pub(crate) fn amount_break(tree: &Table) -> Option<u32>
    requires names { first_failed (rule_3 (table_view tree.now)) ≡ None }
    requires term { first_failed (rule_4 (table_view tree.now)) ≡ None }
    requires transitions { first_failed (rule_7 (table_view tree.now)) ≡ None }
    requires payments { first_failed_of_lists (rule_10 (table_view tree.now)) ≡ None }
    ensures { result ≡ first_failed_of_lists (rule_11 (table_view tree.now)) }
{
    match sums_break(tree) {
        Some(place) => Some(place),
        None => sojourns_break(tree),
    }
}

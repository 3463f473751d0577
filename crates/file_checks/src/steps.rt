//! Rule 10: the steps of the payments.

ghost use Rattle.std.specs.Prelude.{◌≡◌, ◌<◌, ◌≤◌, IfSome, length, map, None};
ghost use Rattle.toml.specs.View.{view, table_view};
ghost use Rattle.named_numbers.specs.Numbers.{most_months};
ghost use Rattle.whole_laws.specs.Whole.{list_of};
ghost use Rattle.product_file.specs.Checks.{first_failed, first_failed_from, first_failed_of_lists};
ghost use Rattle.product_file.specs.HeadRules.{rule_3, rule_4};
ghost use Rattle.product_file.specs.TransitionRule.{rule_7, transition_items};
ghost use Rattle.product_file.specs.PaymentRules.{is_step, steps_rule_10, sojourn_items, is_good_sojourn};
ghost use Rattle.product_file.specs.PaymentRules.{sum_rule_10, sojourn_rule_10, rule_10};
ghost use Rattle.file_checks.specs.Lists.{is_good_step};

use crate::pieces::{is_in_order, place};
use file_tree::{
    constant_step_keys, has_state, is_absent_within, is_format_1, is_table_of, item, items_before,
    piece_keys, sojourn_keys, sojourns, state_at, state_index, steps_of, sum_of, transitions,
    whole_of,
};
use toml::{Table, Value};

// The most coefficients of a step.
const MOST_COEFFICIENTS: usize = 4;

// Whether the value has the keys and types of a step in the file's format.
fn is_step(tree: &Table, value: &Value) -> bool
    ensures { result ≡ is_step (table_view tree.now) (view value.now) }
{
    if is_format_1(tree) {
        is_table_of(value, &constant_step_keys())
    } else {
        is_table_of(value, &piece_keys(MOST_COEFFICIENTS))
    }
}

// Whether the step at a place is one, and starts in order.
fn is_good_step(tree: &Table, steps: &[Value], i: usize) -> bool
    requires { i < length steps.now }
    ensures { result ≡ is_good_step (table_view tree.now) (map view steps.now) i }
{
    let is_step = is_step(tree, item(steps, i));
    is_step & is_in_order(whole_of(tree, "months"), steps, i)
}

// The first of some steps that breaks rule 10, and 0 where there is no step.
fn step_break(tree: &Table, steps: &[Value]) -> Option<u32>
    requires { first_failed (rule_4 (table_view tree.now)) ≡ None }
    ensures value { result ≡ first_failed (steps_rule_10 (table_view tree.now) (map view steps.now)) }
    ensures small { IfSome result (λ i. i ≤ most_months) }
{
    if steps.is_empty() {
        return Some(0);
    }
    for i in 0..steps.len() {
        if !is_good_step(tree, steps, i) {
            return Some(i as u32);
        }
    }
    None
}

// Whether the sojourn at a place is one, names a state, and no earlier one names it.
fn is_good_sojourn(tree: &Table, s: usize) -> bool
    requires { s < length (sojourn_items (table_view tree.now)) }
    ensures { result ≡ is_good_sojourn (table_view tree.now) s }
{
    let values = sojourns(tree);
    let value = item(values, s);
    let index = state_index(tree, "state", value);
    let is_new = !has_state(tree, "state", items_before(values, s), index);
    is_table_of(value, &sojourn_keys()) & state_at(tree, "state", value).is_some() & is_new
}

// The first step of a transition's sum that breaks rule 10, and 0 where the sum is empty.
fn sum_break(tree: &Table, value: &Value) -> Option<u32>
    requires { first_failed (rule_4 (table_view tree.now)) ≡ None }
    ensures value { result ≡ first_failed (sum_rule_10 (table_view tree.now) (view value.now)) }
    ensures small { IfSome result (λ i. i ≤ most_months) }
{
    if is_absent_within(value, "sum") {
        return None;
    }
    step_break(tree, sum_of(value))
}

// The first step of a sojourn that breaks rule 10, and 0 for a fault of the sojourn itself.
fn sojourn_break(tree: &Table, s: usize) -> Option<u32>
    requires term { first_failed (rule_4 (table_view tree.now)) ≡ None }
    requires inside { s < length (sojourn_items (table_view tree.now)) }
    ensures value { result ≡ first_failed (sojourn_rule_10 (table_view tree.now) s) }
    ensures small { IfSome result (λ i. i ≤ most_months) }
{
    if !is_good_sojourn(tree, s) {
        return Some(0);
    }
    step_break(tree, steps_of(item(sojourns(tree), s)))
}

// The first place that breaks rule 10 in the sums of the transitions.
fn sums_break(tree: &Table) -> Option<u32>
    requires names { first_failed (rule_3 (table_view tree.now)) ≡ None }
    requires term { first_failed (rule_4 (table_view tree.now)) ≡ None }
    requires transitions { first_failed (rule_7 (table_view tree.now)) ≡ None }
    ensures { result ≡ first_failed_from 0
        (map (sum_rule_10 (table_view tree.now)) (transition_items (table_view tree.now))) }
{
    let transitions = transitions(tree);
    for k in 0..transitions.len() {
        if let Some(i) = sum_break(tree, item(transitions, k)) {
            return Some(place(k, i));
        }
    }
    None
}

// The first place that breaks rule 10 in the sojourns, whose lists come after those of the transitions.
fn sojourns_break(tree: &Table) -> Option<u32>
    requires names { first_failed (rule_3 (table_view tree.now)) ≡ None }
    requires term { first_failed (rule_4 (table_view tree.now)) ≡ None }
    requires transitions { first_failed (rule_7 (table_view tree.now)) ≡ None }
    ensures { result ≡ first_failed_from (length (transition_items (table_view tree.now)))
        (list_of (length (sojourn_items (table_view tree.now))) (sojourn_rule_10 (table_view tree.now))) }
{
    let transitions = transitions(tree).len();
    let count = sojourns(tree).len();
    for s in 0..count {
        if let Some(i) = sojourn_break(tree, s) {
            return Some(place(transitions + s, i));
        }
    }
    None
}

/// The first place that breaks rule 10: 4096 times the list, and the step. List k is the sum of transition k; after the
/// transitions come the sojourns.
pub(crate) fn payment_break(tree: &Table) -> Option<u32>
    requires names { first_failed (rule_3 (table_view tree.now)) ≡ None }
    requires term { first_failed (rule_4 (table_view tree.now)) ≡ None }
    requires transitions { first_failed (rule_7 (table_view tree.now)) ≡ None }
    ensures { result ≡ first_failed_of_lists (rule_10 (table_view tree.now)) }
{
    match sums_break(tree) {
        Some(place) => Some(place),
        None => sojourns_break(tree),
    }
}

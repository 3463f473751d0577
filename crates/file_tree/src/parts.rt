//! The parts of a file: its transitions, curves, sojourns and lumps, and the steps of its payments.

ghost use Rattle.std.specs.Prelude.{◌≡◌, ◌≤◌, length, map, [], slice_index_or};
ghost use Rattle.std.specs.List.{list_any};
ghost use Rattle.toml.specs.View.{view, table_view};
ghost use Rattle.product_file.specs.TransitionRule.{transition_items, pair_of, is_same_pair};
ghost use Rattle.product_file.specs.CurveRules.{start_of, curve_items};
ghost use Rattle.product_file.specs.PaymentRules.{sojourn_items, sum_items, steps_items};
ghost use Rattle.product_file.specs.LumpRule.{lump_items};

use crate::names::state_index;
use crate::table::{item, items_of};
use crate::within::{items_within, whole_within};
use toml::{Table, Value};

/// The transitions of the file.
pub fn transitions(tree: &Table) -> &[Value]
    ensures items { map view result.now ≡ transition_items (table_view tree.now) }
    ensures count { length result.now ≡ length (transition_items (table_view tree.now)) }
{
    items_of(tree, "transition")
}

/// From which state to which a transition leads, 0 for a name that is no state's.
pub fn pair_of(tree: &Table, value: &Value) -> (usize, usize)
    ensures { result ≡ pair_of (table_view tree.now) (view value.now) }
{
    (
        state_index(tree, "from", value),
        state_index(tree, "to", value),
    )
}

// Whether the pairs of states have the same parts.
fn is_same_pair(x: (usize, usize), y: (usize, usize)) -> bool
    ensures { result ≡ is_same_pair x y }
{
    (x.0 == y.0) & (x.1 == y.1)
}

/// Whether one of the transitions has the pair.
pub fn has_pair(tree: &Table, values: &[Value], pair: (usize, usize)) -> bool
    ensures { result ≡ list_any (is_same_pair pair) (map (pair_of (table_view tree.now)) (map view values.now)) }
{
    values
        .iter()
        .any(|value| is_same_pair(pair, pair_of(tree, value)))
}

/// The pieces of a curve: the interest is curve 0, and the rate of transition k is curve k + 1.
pub fn curve(tree: &Table, k: usize) -> &[Value]
    requires { k ≤ length (transition_items (table_view tree.now)) }
    ensures { map view result.now ≡ slice_index_or (curve_items (table_view tree.now)) k [] }
{
    if k == 0 {
        items_of(tree, "interest")
    } else {
        items_within(item(transitions(tree), k - 1), "rate")
    }
}

/// The sojourns of the file.
pub fn sojourns(tree: &Table) -> &[Value]
    ensures items { map view result.now ≡ sojourn_items (table_view tree.now) }
    ensures count { length result.now ≡ length (sojourn_items (table_view tree.now)) }
{
    items_of(tree, "sojourn")
}

/// The steps of a transition's sum, and none where it has no sum.
pub fn sum_of(value: &Value) -> &[Value]
    ensures { map view result.now ≡ sum_items (view value.now) }
{
    items_within(value, "sum")
}

/// The steps of a sojourn.
pub fn steps_of(value: &Value) -> &[Value]
    ensures { map view result.now ≡ steps_items (view value.now) }
{
    items_within(value, "steps")
}

/// The month from which a piece or a step holds.
pub fn start_of(value: &Value) -> i64
    ensures { result ≡ start_of (view value.now) }
{
    whole_within(value, "from")
}

/// The lumps of the file.
pub fn lumps(tree: &Table) -> &[Value]
    ensures items { map view result.now ≡ lump_items (table_view tree.now) }
    ensures count { length result.now ≡ length (lump_items (table_view tree.now)) }
{
    items_of(tree, "lump")
}

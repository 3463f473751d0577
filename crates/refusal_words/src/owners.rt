//! Whose steps a list holds, and whether a sojourn is itself at fault.

ghost use Rattle.std.specs.Prelude.{◌≡◌, ◌<◌, ◌==◌, codes, is_some, length, not, take};
ghost use Rattle.std.specs.List.{list_any};
ghost use Rattle.toml.specs.View.{view, table_view};
ghost use Rattle.product_file.specs.Members.{item_at};
ghost use Rattle.product_file.specs.TransitionRule.{state_at, state_index};
ghost use Rattle.product_file.specs.PaymentRules.{is_good_sojourn, is_sojourn, sojourn_items};
ghost use Rattle.refusal_words.specs.FileNames.{owner_of};

use file_tree::{
    has_state, is_table_of, item, items_before, sojourn_keys, sojourns, state_at, state_index,
    transitions,
};
use toml::{Table, Value};

/// Whose steps a list holds: those of the sum of a transition, or those of a sojourn, both counted from 0.
#[derive(Clone, Copy, Debug, PartialEq, Eq)]
pub enum Owner {
    Transition(u32),
    Sojourn(u32),
}

/// Whose steps a list holds: behind the transitions come the sojourns.
pub fn owner_of(tree: &Table, list: u32) -> Owner
    ensures { result ≡ owner_of (table_view tree.now) list }
{
    let count = transitions(tree).len();
    if (list as usize) < count {
        Owner::Transition(list)
    } else {
        Owner::Sojourn(list - count as u32)
    }
}

// Whether the value is a sojourn.
fn is_sojourn(value: &Value) -> bool
    ensures { result ≡ is_sojourn (view value.now) }
{
    is_table_of(value, &sojourn_keys())
}

// Whether a sojourn names a state.
fn names_state(tree: &Table, value: &Value) -> bool
    ensures { result ≡ is_some (state_at (table_view tree.now) (codes "state") (view value.now)) }
{
    state_at(tree, "state", value).is_some()
}

// Whether none of the sojourns before a place names the state of this one.
fn is_first_of_its_state(tree: &Table, s: usize, value: &Value) -> bool
    requires { s < length (sojourn_items (table_view tree.now)) }
    ensures { result ≡ not (list_any (λ e. state_index (table_view tree.now) (codes "state") e
        == state_index (table_view tree.now) (codes "state") (view value.now))
        (take s (sojourn_items (table_view tree.now)))) }
{
    let before = items_before(sojourns(tree), s);
    !has_state(tree, "state", before, state_index(tree, "state", value))
}

// A sojourn by its place.
fn sojourn_at(tree: &Table, s: usize) -> &Value
    requires { s < length (sojourn_items (table_view tree.now)) }
    ensures { view result.now ≡ item_at (sojourn_items (table_view tree.now)) s }
{
    item(sojourns(tree), s)
}

// Whether a sojourn is one, names a state, and no earlier one names it.
fn is_good(tree: &Table, s: usize) -> bool
    requires { s < length (sojourn_items (table_view tree.now)) }
    ensures { result ≡ is_good_sojourn (table_view tree.now) s }
{
    let value = sojourn_at(tree, s);
    is_sojourn(value) & names_state(tree, value) & is_first_of_its_state(tree, s, value)
}

/// Whether there is a sojourn at a place, is one, names a state, and no earlier one names it.
pub fn is_good_sojourn(tree: &Table, s: u32) -> bool
    ensures { result ≡ is_good_sojourn (table_view tree.now) s }
{
    let s = s as usize;
    s < sojourns(tree).len() && is_good(tree, s)
}

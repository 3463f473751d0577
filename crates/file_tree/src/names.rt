//! The states of a file, and which of them a text names.

ghost use Rattle.std.specs.Prelude.{◌≡◌, ◌==◌, length, map, codes};
ghost use Rattle.std.specs.List.{list_any};
ghost use Rattle.toml.specs.View.{view, table_view};
ghost use Rattle.product_file.specs.Members.{is_among, items_of};
ghost use Rattle.product_file.specs.HeadRules.{state_names, state_of};
ghost use Rattle.product_file.specs.TransitionRule.{state_at, state_index};
ghost use Rattle.file_tree.specs.Texts.{text_in};

use crate::table::{items_of, text_in};
use crate::within::text_within;
use toml::{Table, Value};

/// The states of the file.
pub fn states(tree: &Table) -> &[Value]
    ensures items { map view result.now ≡ items_of (codes "states") (table_view tree.now) }
    ensures count { length result.now ≡ length (state_names (table_view tree.now)) }
{
    items_of(tree, "states")
}

/// Whether one of the values is a string of this name.
pub fn has_name(values: &[Value], name: &str) -> bool
    ensures { result ≡ is_among (map text_in (map view values.now)) name.now }
{
    values.iter().any(|value| name == text_in(value))
}

/// The index of the state with a name, if there is one.
pub fn state_of(tree: &Table, name: &str) -> Option<usize>
    ensures { result ≡ state_of (table_view tree.now) name.now }
{
    states(tree).iter().position(|state| name == text_in(state))
}

/// The index of the state that a key of a table names, if it names one.
pub fn state_at(tree: &Table, key: &str, value: &Value) -> Option<usize>
    ensures { result ≡ state_at (table_view tree.now) key.now (view value.now) }
{
    state_of(tree, text_within(value, key))
}

/// The index of the state that a key of a table names, and 0 where it names none.
pub fn state_index(tree: &Table, key: &str, value: &Value) -> usize
    ensures { result ≡ state_index (table_view tree.now) key.now (view value.now) }
{
    state_at(tree, key, value).unwrap_or(0)
}

/// Whether one of the tables names the state with this index at a key.
pub fn has_state(tree: &Table, key: &str, values: &[Value], index: usize) -> bool
    ensures { result ≡ list_any (λ e. state_index (table_view tree.now) key.now e == index) (map view values.now) }
{
    values
        .iter()
        .any(|value| state_index(tree, key, value) == index)
}

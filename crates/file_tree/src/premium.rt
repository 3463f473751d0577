//! The premium table of a file.

ghost use Rattle.std.specs.Prelude.{◌≡◌, ◌==◌, length, map};
ghost use Rattle.std.specs.List.{list_any};
ghost use Rattle.toml.specs.View.{view, table_view};
ghost use Rattle.product_file.specs.Members.{whole_of};
ghost use Rattle.product_file.specs.PatternRules.{premium_of, payer_items, payer_state, payer_index, is_premium};

use crate::keys::{has_keys, premium_keys};
use crate::names::state_of;
use crate::table::{items_of, table_at, text_in, whole_of};
use toml::{Table, Value};

/// Whether the file has a premium table with its keys and no other.
pub fn has_premium(tree: &Table) -> bool
    ensures { result ≡ is_premium (premium_of (table_view tree.now)) }
{
    match table_at(tree, "premium") {
        Some(table) => has_keys(table, &premium_keys()),
        None => false,
    }
}

/// The whole number at a key of the premium table, and 0 where there is none.
pub fn premium_whole(tree: &Table, key: &str) -> i64
    ensures { result ≡ whole_of key.now (premium_of (table_view tree.now)) }
{
    match table_at(tree, "premium") {
        Some(table) => whole_of(table, key),
        None => 0,
    }
}

/// The payers of the file.
pub fn payers(tree: &Table) -> &[Value]
    ensures items { map view result.now ≡ payer_items (table_view tree.now) }
    ensures count { length result.now ≡ length (payer_items (table_view tree.now)) }
{
    match table_at(tree, "premium") {
        Some(table) => items_of(table, "payers"),
        None => &[],
    }
}

/// The index of the state that a payer names, if it names one.
pub fn payer_state(tree: &Table, value: &Value) -> Option<usize>
    ensures { result ≡ payer_state (table_view tree.now) (view value.now) }
{
    state_of(tree, text_in(value))
}

/// The index of the state that a payer names, and 0 where it names none.
pub fn payer_index(tree: &Table, value: &Value) -> usize
    ensures { result ≡ payer_index (table_view tree.now) (view value.now) }
{
    payer_state(tree, value).unwrap_or(0)
}

/// Whether one of the payers names the state with an index.
pub fn has_payer(tree: &Table, values: &[Value], index: usize) -> bool
    ensures { result ≡ list_any (λ e. payer_index (table_view tree.now) e == index) (map view values.now) }
{
    values.iter().any(|value| payer_index(tree, value) == index)
}

//! What a value of a product file holds at a key, where it is a table, and whether arrays hold whole numbers.

ghost use Rattle.std.specs.Prelude.{◌≡◌, ◌<◌, length, map, is_some};
ghost use Rattle.std.specs.List.{list_all};
ghost use Rattle.toml.specs.Data.{as_integer};
ghost use Rattle.toml.specs.View.{view, table_view};
ghost use Rattle.whole_laws.specs.Whole.{natural_part};
ghost use Rattle.model_specs.specs.MonthNumbers.{coefficient_at};
ghost use Rattle.product_file.specs.Members.{is_absent, whole_of, text_of, items_of, members_of, wholes_of};
ghost use Rattle.product_file.specs.Members.{has_wholes};

use crate::head::natural_part;
use crate::table::{has_array, is_absent, item, items_of, text_of, whole_of};
use toml::{Table, Value};

/// Whether there is nothing at a key of a table; where the value is no table, there is nothing.
pub fn is_absent_within(value: &Value, key: &str) -> bool
    ensures { result ≡ is_absent key.now (members_of (view value.now)) }
{
    match value.as_table() {
        Some(table) => is_absent(table, key),
        None => true,
    }
}

/// The whole number at a key of a table, and 0 where there is none, or no table.
pub fn whole_within(value: &Value, key: &str) -> i64
    ensures { result ≡ whole_of key.now (members_of (view value.now)) }
{
    match value.as_table() {
        Some(table) => whole_of(table, key),
        None => 0,
    }
}

/// The natural number at a key of a table, and 0 where there is none, or no table.
pub fn natural_within(value: &Value, key: &str) -> u64
    ensures { result ≡ natural_part (whole_of key.now (members_of (view value.now))) }
{
    natural_part(whole_within(value, key))
}

/// The string at a key of a table, and an empty one where there is none, or no table.
pub(crate) fn text_within<'a>(value: &'a Value, key: &str) -> &'a str
    ensures { result.now ≡ text_of key.now (members_of (view value.now)) }
{
    match value.as_table() {
        Some(table) => text_of(table, key),
        None => "",
    }
}

/// The items of the array at a key of a table, and none where there is no array, or no table.
pub fn items_within<'a>(value: &'a Value, key: &str) -> &'a [Value]
    ensures items { map view result.now ≡ items_of key.now (members_of (view value.now)) }
    ensures count { length result.now ≡ length (items_of key.now (members_of (view value.now))) }
{
    match value.as_table() {
        Some(table) => items_of(table, key),
        None => &[],
    }
}

// Whether each value is a whole number.
fn are_whole(values: &[Value]) -> bool
    ensures { result ≡ list_all (λ d. is_some (as_integer d)) (map view values.now) }
{
    values.iter().all(|value| value.is_integer())
}

/// Whether an array of 1 to `most` whole numbers is at a key.
pub(crate) fn has_wholes(table: &Table, key: &str, most: usize) -> bool
    ensures { result ≡ has_wholes most key.now (table_view table.now) }
{
    let values = items_of(table, key);
    has_array(table, key) & (1 <= values.len()) & (values.len() <= most) & are_whole(values)
}

/// The coefficient at a place of an array of whole numbers: 0 past its end, and for an item that is none.
pub(crate) fn coefficient_at(values: &[Value], i: usize) -> i64
    ensures { result ≡ coefficient_at (wholes_of (map view values.now)) i }
{
    if i < values.len() {
        item(values, i).as_integer().unwrap_or(0)
    } else {
        0
    }
}

//! What a table of a product file holds at a key, where that has the wanted type.

ghost use Rattle.std.specs.Prelude.{◌≡◌, ◌<◌, ◌≤◌, length, map, take, is_some};
ghost use Rattle.std.specs.Prelude.{option_map, option_copied, option_and_then};
ghost use Rattle.toml.specs.Data.{as_table, get_member};
ghost use Rattle.toml.specs.View.{view, array_view, table_view};
ghost use Rattle.product_file.specs.Members.{whole_at, text_at, array_at, is_absent};
ghost use Rattle.product_file.specs.Members.{whole_of, text_of, items_of, item_at};
ghost use Rattle.file_tree.specs.Texts.{text_in};

use toml::value::Array;
use toml::{Table, Value};

fn member_at<'a>(table: &'a Table, key: &str) -> Option<&'a Value>
    ensures { option_map (λ v. view v.now) result ≡ get_member key.now (table_view table.now) }
{
    table.get(key)
}

/// Whether there is nothing at a key.
pub fn is_absent(table: &Table, key: &str) -> bool
    ensures { result ≡ is_absent key.now (table_view table.now) }
{
    member_at(table, key).is_none()
}

/// The whole number at a key; a float and a boolean are none.
pub(crate) fn whole_at(table: &Table, key: &str) -> Option<i64>
    ensures { result ≡ whole_at key.now (table_view table.now) }
{
    match member_at(table, key) {
        Some(value) => value.as_integer(),
        None => None,
    }
}

/// The string at a key.
pub(crate) fn text_at<'a>(table: &'a Table, key: &str) -> Option<&'a str>
    ensures { option_copied result ≡ text_at key.now (table_view table.now) }
{
    match member_at(table, key) {
        Some(value) => value.as_str(),
        None => None,
    }
}

/// The array at a key.
pub(crate) fn array_at<'a>(table: &'a Table, key: &str) -> Option<&'a Array>
    ensures { option_map (λ v. array_view v.now) result ≡ array_at key.now (table_view table.now) }
{
    match member_at(table, key) {
        Some(value) => value.as_array(),
        None => None,
    }
}

/// The table at a key.
pub(crate) fn table_at<'a>(table: &'a Table, key: &str) -> Option<&'a Table>
    ensures { option_map (λ t. table_view t.now) result
        ≡ option_and_then as_table (get_member key.now (table_view table.now)) }
{
    match member_at(table, key) {
        Some(value) => value.as_table(),
        None => None,
    }
}

/// Whether a whole number is at a key.
pub(crate) fn has_whole(table: &Table, key: &str) -> bool
    ensures { result ≡ is_some (whole_at key.now (table_view table.now)) }
{
    whole_at(table, key).is_some()
}

/// Whether a string is at a key.
pub(crate) fn has_text(table: &Table, key: &str) -> bool
    ensures { result ≡ is_some (text_at key.now (table_view table.now)) }
{
    text_at(table, key).is_some()
}

/// Whether an array is at a key.
pub(crate) fn has_array(table: &Table, key: &str) -> bool
    ensures { result ≡ is_some (array_at key.now (table_view table.now)) }
{
    array_at(table, key).is_some()
}

/// Whether a table is at a key.
pub(crate) fn has_table(table: &Table, key: &str) -> bool
    ensures { result ≡ is_some (option_and_then as_table (get_member key.now (table_view table.now))) }
{
    table_at(table, key).is_some()
}

/// The whole number at a key, and 0 where there is none.
pub fn whole_of(table: &Table, key: &str) -> i64
    ensures { result ≡ whole_of key.now (table_view table.now) }
{
    whole_at(table, key).unwrap_or(0)
}

/// The string at a key, and an empty one where there is none.
pub fn text_of<'a>(table: &'a Table, key: &str) -> &'a str
    ensures { result.now ≡ text_of key.now (table_view table.now) }
{
    match text_at(table, key) {
        Some(text) => text,
        None => "",
    }
}

/// The items of the array at a key, and none where there is no array.
pub fn items_of<'a>(table: &'a Table, key: &str) -> &'a [Value]
    ensures items { map view result.now ≡ items_of key.now (table_view table.now) }
    ensures count { length result.now ≡ length (items_of key.now (table_view table.now)) }
{
    match array_at(table, key) {
        Some(items) => items,
        None => &[],
    }
}

/// The item at a place.
pub fn item(items: &[Value], i: usize) -> &Value
    requires { i < length items.now }
    ensures { view result.now ≡ item_at (map view items.now) i }
{
    &items[i]
}

/// The items before a place.
pub fn items_before(items: &[Value], i: usize) -> &[Value]
    requires { i ≤ length items.now }
    ensures items { map view result.now ≡ take i (map view items.now) }
    ensures count { length result.now ≡ i }
{
    &items[..i]
}

/// The string, and an empty one where the value is none.
pub fn text_in(value: &Value) -> &str
    ensures { result.now ≡ text_in (view value.now) }
{
    match value.as_str() {
        Some(text) => text,
        None => "",
    }
}

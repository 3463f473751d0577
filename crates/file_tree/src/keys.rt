//! The keys of the tables of a product file, in one table: what stands at each of them, and which may be left out.

ghost use Rattle.std.specs.Prelude.{◌≡◌};
ghost use Rattle.std.specs.List.{list_all};
ghost use Rattle.toml.specs.View.{view, table_view};
ghost use Rattle.product_file.specs.Members.{has_no_key_but, is_among};
ghost use Rattle.product_file.specs.Keys as file;
ghost use Rattle.product_file.specs.Keys.{has_kind, has_key, has_keys, is_table_of, names_of};
ghost use Rattle.file_tree.specs.KeyTables.{kind_of, key_of, keys_of};

use crate::table::{has_array, has_table, has_text, has_whole, is_absent};
use crate::within::has_wholes;
use toml::{Table, Value};

/// What may stand at a key.
#[derive(Clone, Copy)]
pub enum Kind {
    Whole,
    Text,
    Array,
    /// An array of 1 to so many whole numbers.
    Wholes(usize),
    Table,
}

/// A key of a table: its name, what stands there, and whether it has to be there.
#[derive(Clone, Copy)]
pub struct Key {
    pub name: &'static str,
    pub kind: Kind,
    pub is_needed: bool,
}

// A key that has to be there.
fn needed(name: &'static str, kind: Kind) -> Key
    ensures { key_of result ≡ file.needed name.now (kind_of kind) }
{
    Key {
        name,
        kind,
        is_needed: true,
    }
}

// A key that may be left out.
fn optional(name: &'static str, kind: Kind) -> Key
    ensures { key_of result ≡ file.optional name.now (kind_of kind) }
{
    Key {
        name,
        kind,
        is_needed: false,
    }
}

/// The keys of the top table, in the order of rule 1.
pub fn top_keys() -> [Key; 11]
    ensures { keys_of result ≡ file.top_keys }
{
    [
        needed("format", Kind::Whole),
        needed("name", Kind::Text),
        needed("months", Kind::Whole),
        needed("den", Kind::Whole),
        needed("start", Kind::Text),
        needed("states", Kind::Array),
        needed("interest", Kind::Array),
        optional("transition", Kind::Array),
        optional("sojourn", Kind::Array),
        optional("lump", Kind::Array),
        optional("premium", Kind::Table),
    ]
}

/// The keys of a transition.
pub fn transition_keys() -> [Key; 4]
    ensures { keys_of result ≡ file.transition_keys }
{
    [
        needed("from", Kind::Text),
        needed("to", Kind::Text),
        needed("rate", Kind::Array),
        optional("sum", Kind::Array),
    ]
}

/// The keys of a piece of a curve, or of a step in format 2, of at most so many coefficients.
pub fn piece_keys(most: usize) -> [Key; 2]
    ensures { keys_of result ≡ file.piece_keys most }
{
    [needed("from", Kind::Whole), needed("c", Kind::Wholes(most))]
}

/// The keys of a step in format 1.
pub fn constant_step_keys() -> [Key; 2]
    ensures { keys_of result ≡ file.constant_step_keys }
{
    [needed("from", Kind::Whole), needed("amount", Kind::Whole)]
}

/// The keys of a sojourn.
pub fn sojourn_keys() -> [Key; 2]
    ensures { keys_of result ≡ file.sojourn_keys }
{
    [needed("state", Kind::Text), needed("steps", Kind::Array)]
}

/// The keys of a lump.
pub fn lump_keys() -> [Key; 3]
    ensures { keys_of result ≡ file.lump_keys }
{
    [
        needed("month", Kind::Whole),
        needed("state", Kind::Text),
        needed("amount", Kind::Whole),
    ]
}

/// The keys of the premium table.
pub fn premium_keys() -> [Key; 3]
    ensures { keys_of result ≡ file.premium_keys }
{
    [
        needed("payers", Kind::Array),
        needed("until", Kind::Whole),
        needed("every", Kind::Whole),
    ]
}

// Whether something of this kind stands at a key.
fn has_kind(table: &Table, name: &str, kind: Kind) -> bool
    ensures { result ≡ has_kind (kind_of kind) name.now (table_view table.now) }
{
    match kind {
        Kind::Whole => has_whole(table, name),
        Kind::Text => has_text(table, name),
        Kind::Array => has_array(table, name),
        Kind::Wholes(most) => has_wholes(table, name, most),
        Kind::Table => has_table(table, name),
    }
}

/// Whether the key holds in a table: what stands there is of its kind, or it may be left out and is.
pub fn has_key(table: &Table, key: &Key) -> bool
    ensures { result ≡ has_key (table_view table.now) (key_of key.now) }
{
    (!key.is_needed & is_absent(table, key.name)) | has_kind(table, key.name, key.kind)
}

// Whether one of the keys has the name.
fn is_named(keys: &[Key], name: &str) -> bool
    ensures { result ≡ is_among (names_of (keys_of keys.now)) name.now }
{
    keys.iter().any(|key| name == key.name)
}

/// Whether the table has no key but these.
pub fn has_no_other_key(table: &Table, keys: &[Key]) -> bool
    ensures { result ≡ has_no_key_but (names_of (keys_of keys.now)) (table_view table.now) }
{
    table.keys().all(|key| is_named(keys, key.as_str()))
}

// Whether each of the keys holds in the table.
fn has_each_key(table: &Table, keys: &[Key]) -> bool
    ensures { result ≡ list_all (has_key (table_view table.now)) (keys_of keys.now) }
{
    keys.iter().all(|key| has_key(table, key))
}

/// Whether each of the keys holds in the table, and it has no other.
pub fn has_keys(table: &Table, keys: &[Key]) -> bool
    ensures { result ≡ has_keys (keys_of keys.now) (table_view table.now) }
{
    has_each_key(table, keys) & has_no_other_key(table, keys)
}

/// Whether the value is a table in which each of the keys holds, and it has no other.
pub fn is_table_of(value: &Value, keys: &[Key]) -> bool
    ensures { result ≡ is_table_of (keys_of keys.now) (view value.now) }
{
    match value.as_table() {
        Some(table) => has_keys(table, keys),
        None => false,
    }
}

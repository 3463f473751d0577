//! The lines under a key of the top table that is missing or has a value of a wrong type.

ghost use Rattle.std.specs.Prelude.{◌≡◌, ◌++◌, OnOk};
ghost use Rattle.toml.specs.View.{table_view};
ghost use Rattle.product_file.specs.Members.{is_absent};
ghost use Rattle.refusal_words.specs.Places.{word_of};
ghost use Rattle.refusal_words.specs.KeyTexts.{key_found, key_lines, key_wanted};

use crate::places::Thing;
use file_tree::is_absent;
use std::alloc::AllocError;
use toml::Table;

// What stands at the key, as a line.
#[tactic(auto, unfolding(crate::specs::KeyTexts::key_wanted))]
fn key_wanted(key: Thing) -> &'static [u8]
    ensures { result.now ≡ key_wanted key }
{
    match key {
        Thing::Format => b"wanted: format = a whole number\n",
        Thing::Name => b"wanted: name = a string\n",
        Thing::Months => b"wanted: months = a whole number\n",
        Thing::Den => b"wanted: den = a whole number\n",
        Thing::Start => b"wanted: start = a string\n",
        Thing::States => b"wanted: states = an array of strings\n",
        Thing::Interest => b"wanted: interest = an array of pieces\n",
        Thing::Transition =>
            b"wanted: transition = an array of tables, each headed by [[transition]]\n",
        Thing::Sojourn => b"wanted: sojourn = an array of tables, each headed by [[sojourn]]\n",
        Thing::Lump => b"wanted: lump = an array of tables, each headed by [[lump]]\n",
        Thing::Premium => b"wanted: premium = a table, headed by [premium]\n",
        _ => b"",
    }
}

// Whether the file has no such key.
fn has_no_key(tree: &Table, key: Thing) -> bool
    ensures { result ≡ is_absent (word_of key) (table_view tree.now) }
{
    is_absent(tree, key.word())
}

// Appends what is found at the key, where that is nothing.
#[tactic(auto, unfolding(crate::specs::KeyTexts::key_found))]
fn push_key_found(out: &mut Vec<u8>, tree: &Table, key: Thing) -> Result<(), AllocError>
    ensures { OnOk result (out.new.items ≡ out.old.items ++ key_found (table_view tree.now) key) }
{
    if has_no_key(tree, key) {
        out.extend_from_slice(b"found: no such key\n")
    } else {
        Ok(())
    }
}

/// Appends both lines of a key.
#[tactic(auto, unfolding(crate::specs::KeyTexts::key_lines))]
pub fn push_key_lines(out: &mut Vec<u8>, tree: &Table, key: Thing) -> Result<(), AllocError>
    ensures { OnOk result (out.new.items ≡ out.old.items ++ key_lines (table_view tree.now) key) }
{
    push_key_found(out, tree, key)?;
    out.extend_from_slice(key_wanted(key))
}

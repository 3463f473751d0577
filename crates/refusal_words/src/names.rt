//! Names of a file, shown where they are good names, and numbers that count from 1.

ghost use Rattle.std.specs.Prelude.{◌≡◌, ◌<◌, ◌++◌, ◌&&◌, length, map, nat_lt, nat_le, OnOk};
ghost use Rattle.std.specs.List.{list_all};
ghost use Rattle.toml.specs.View.{view};
ghost use Rattle.model_specs.specs.Names.{is_name_byte};
ghost use Rattle.product_file.specs.Members.{item_at, members_of, text_of};
ghost use Rattle.file_tree.specs.Texts.{text_in};
ghost use Rattle.refusal_words.specs.FileNames as spec;
ghost use Rattle.refusal_words.specs.FileNames.{ends_words, is_shown, named, numbered};

use decimal_out::push_whole;
use file_tree::text_of;
use named_numbers::LONGEST_PRODUCT_NAME;
use std::alloc::AllocError;
use toml::Value;

// Whether a name may have the byte.
fn is_name_byte(b: u8) -> bool
    ensures { result ≡ is_name_byte b }
{
    b.is_ascii_alphanumeric() || b == b'.' || b == b'_' || b == b'-'
}

// Whether a name may have so many bytes.
fn has_length(name: &str) -> bool
    ensures { result ≡ (nat_lt 0 (length name.now) && nat_le (length name.now) 40) }
{
    !name.is_empty() && name.len() <= LONGEST_PRODUCT_NAME
}

// Whether a name may have each of the bytes.
fn has_name_bytes(name: &str) -> bool
    ensures { result ≡ list_all is_name_byte name.now }
{
    name.as_bytes().iter().all(|b| is_name_byte(*b))
}

/// Whether the text is shown: it is a good name of at most 40 bytes, and so has no control character.
#[tactic(auto, unfolding(crate::specs::FileNames::is_shown))]
pub fn is_shown(name: &str) -> bool
    ensures { result ≡ is_shown name.now }
{
    has_length(name) && has_name_bytes(name)
}

/// Appends a comma and the name, or nothing where it is not shown.
#[tactic(auto, unfolding(crate::specs::FileNames::named))]
pub fn push_named(out: &mut Vec<u8>, name: &str) -> Result<(), AllocError>
    ensures { OnOk result (out.new.items ≡ out.old.items ++ named name.now) }
{
    if is_shown(name) {
        out.extend_from_slice(b", ")?;
        out.extend_from_slice(name.as_bytes())?;
    }
    Ok(())
}

/// Appends a comma and from where to where, or nothing where one of them is not shown.
#[tactic(auto, unfolding(crate::specs::FileNames::ends_words))]
pub fn push_ends(out: &mut Vec<u8>, from: &str, to: &str) -> Result<(), AllocError>
    ensures { OnOk result (out.new.items ≡ out.old.items ++ ends_words from.now to.now) }
{
    if is_shown(from) & is_shown(to) {
        out.extend_from_slice(b", ")?;
        out.extend_from_slice(from.as_bytes())?;
        out.extend_from_slice(b" to ")?;
        out.extend_from_slice(to.as_bytes())?;
    }
    Ok(())
}

/// Appends a word and a number that counts from 1 where `k` counts from 0.
#[tactic(auto, unfolding(crate::specs::FileNames::numbered))]
pub fn push_numbered(out: &mut Vec<u8>, word: &[u8], k: u32) -> Result<(), AllocError>
    ensures { OnOk result (out.new.items ≡ out.old.items ++ numbered word.now k) }
{
    out.extend_from_slice(word)?;
    push_whole(out, u64::from(k) + 1)
}

// The string at a key of a table, and an empty one where there is none, or no table.
fn text_within<'a>(value: &'a Value, key: &str) -> &'a str
    ensures { result.now ≡ text_of key.now (members_of (view value.now)) }
{
    match value.as_table() {
        Some(table) => text_of(table, key),
        None => "",
    }
}

/// The text at a key of something in a list, and none where there is no such thing.
pub fn text_at<'a>(items: &'a [Value], k: u32, key: &str) -> &'a str
    ensures { result.now ≡ spec.text_at key.now (map view items.now) k }
{
    match items.get(k as usize) {
        Some(value) => text_within(value, key),
        None => "",
    }
}

/// The text of something in a list, and none where there is no such thing, or it is no text.
pub fn text_item(items: &[Value], k: u32) -> &str
    ensures { result.now ≡ text_in (item_at (map view items.now) k) }
{
    match items.get(k as usize) {
        Some(value) => file_tree::text_in(value),
        None => "",
    }
}

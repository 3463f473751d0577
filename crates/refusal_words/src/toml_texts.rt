//! The lines under a file that is no TOML text.

ghost use Rattle.std.specs.Prelude.{◌≡◌, ◌+◌, ◌^◌, ◌<◌, ◌≤◌, ◌++◌, length, IfOk, OnOk};
ghost use Rattle.refusal_words.specs.RuleTexts.{at_line, rule_line};
ghost use Rattle.refusal_words.specs.TomlTexts as spec;
ghost use Rattle.refusal_words.specs.TomlTexts.{column_after, line_after, next_column, text_place, toml_demand};
ghost use Rattle.refusal_words.specs.TomlTexts.{toml_text, IsTomlText};

use crate::rule_texts::{push_at_line, push_rule_line};
use decimal_out::push_whole;
use std::alloc::{AllocError, Global};

// Whether the byte begins a character.
fn begins_character(b: u8) -> bool
    ensures { result ≡ spec.begins_character b }
{
    b < 128 || b >= 192
}

// The line behind some bytes, from 1.
fn line_after(before: &[u8]) -> u64
    ensures { result ≡ line_after before.now }
{
    before.iter().filter(|b| **b == b'\n').count() as u64 + 1
}

// The column behind one more byte.
fn next_column(column: u128, b: u8) -> u128
    requires { column < 2 ^ 100 }
    ensures value { result ≡ next_column column b }
    ensures small { result ≤ column + 1 }
{
    if b == b'\n' {
        1
    } else if begins_character(b) {
        column + 1
    } else {
        column
    }
}

// The column behind some bytes, in characters from 1.
#[tactic(auto, using(std::proofs::lemmas::List::Sums::fold_more))]
fn column_after(before: &[u8]) -> u128
    ensures { result ≡ column_after before.now }
{
    let mut column = 1;
    for b in before {
        column = next_column(column, *b);
    }
    column
}

// What a product file is.
#[tactic(auto, unfolding(crate::specs::TomlTexts::toml_demand))]
fn toml_demand() -> &'static [u8]
    ensures { result.now ≡ toml_demand }
{
    b"the file is TOML text"
}

// A place of a text.
#[tactic(auto, unfolding(crate::specs::TomlTexts::text_place))]
fn text_place(alloc: Global, line: u64, column: u128) -> Result<Vec<u8>, AllocError>
    ensures { IfOk result (λ text. text.items ≡ text_place line column) }
{
    let mut text = b"line ".to_vec(alloc)?;
    push_whole(&mut text, line)?;
    text.extend_from_slice(b", column ")?;
    push_whole(&mut text, column)?;
    Ok(text)
}

// Appends the line of a place behind some bytes.
fn push_place(alloc: Global, out: &mut Vec<u8>, before: &[u8]) -> Result<(), AllocError>
    ensures { OnOk result
        (out.new.items ≡ out.old.items ++ at_line (text_place (line_after before.now) (column_after before.now))) }
{
    let place = text_place(alloc, line_after(before), column_after(before))?;
    push_at_line(out, &place)
}

// The lines of a fault behind so many bytes of the file.
fn fault_lines(alloc: Global, file: &[u8], offset: usize) -> Result<Vec<u8>, AllocError>
    requires { offset ≤ length file.now }
    ensures { IfOk result (λ text. text.items ≡ toml_text file.now offset) }
{
    let mut text = Vec::new(alloc);
    push_rule_line(&mut text, toml_demand())?;
    push_place(alloc, &mut text, &file[..offset])?;
    Ok(text)
}

// The line of a file without a fault that is known.
fn demand_line(alloc: Global) -> Result<Vec<u8>, AllocError>
    ensures { IfOk result (λ text. text.items ≡ rule_line toml_demand) }
{
    let mut text = Vec::new(alloc);
    push_rule_line(&mut text, toml_demand())?;
    Ok(text)
}

/// The lines of a file that is no TOML text, with the line and the column, both from 1, at which the reader says that
/// its fault begins: of that place the reader itself promises only that it lies within the file. A file that is TOML
/// text has the first line alone.
pub fn toml_lines(alloc: Global, file: &[u8]) -> Result<Vec<u8>, AllocError>
    ensures { IfOk result (λ text. IsTomlText file.now text.items) }
{
    match toml::table_from_slice(alloc, file) {
        Ok(_) => demand_line(alloc),
        Err(error) => match error.span() {
            Some(span) => fault_lines(alloc, file, span.start),
            None => Err(AllocError),
        },
    }
}

//! The lines under a broken rule.

ghost use Rattle.std.specs.Prelude.{◌≡◌, ◌++◌, IfOk, OnOk};
ghost use Rattle.toml.specs.Data.{Members};
ghost use Rattle.toml.specs.View.{table_view};
ghost use Rattle.product_file.specs.Verdict.{IsNotToml, ReadsAs};
ghost use Rattle.refusal_words.specs.PlaceTexts.{curve_in_month, file_place, plain_place};
ghost use Rattle.refusal_words.specs.RuleTexts.{at_line, derived_text, file_lines, plain_lines, rule_line, rule_text};

use crate::file_places::{push_curve_in_month, push_file_place};
use crate::findings::push_finding;
use crate::found::finding_of;
use crate::places::Place;
use crate::plain_places::push_plain_place;
use crate::rules::Rule;
use rule_breaks::RuleBreak;
use std::alloc::{AllocError, Global};
use toml::Table;

/// Appends the line of a demand.
#[tactic(auto, unfolding(crate::specs::RuleTexts::rule_line))]
pub fn push_rule_line(out: &mut Vec<u8>, sentence: &[u8]) -> Result<(), AllocError>
    ensures { OnOk result (out.new.items ≡ out.old.items ++ rule_line sentence.now) }
{
    out.extend_from_slice(b"rule: ")?;
    out.extend_from_slice(sentence)?;
    out.extend_from_slice(b"\n")
}

/// Appends the line of a place in words.
#[tactic(auto, unfolding(crate::specs::RuleTexts::at_line))]
pub fn push_at_line(out: &mut Vec<u8>, words: &[u8]) -> Result<(), AllocError>
    ensures { OnOk result (out.new.items ≡ out.old.items ++ at_line words.now) }
{
    out.extend_from_slice(b"at: ")?;
    out.extend_from_slice(words)?;
    out.extend_from_slice(b"\n")
}

// Appends the line of a place of a file.
#[tactic(auto, unfolding(crate::specs::RuleTexts::at_line))]
fn push_file_at(out: &mut Vec<u8>, tree: &Table, rule: Rule, place: Place) -> Result<(), AllocError>
    ensures { OnOk result (out.new.items ≡ out.old.items
        ++ at_line (file_place (table_view tree.now) place ++ curve_in_month (table_view tree.now) rule place)) }
{
    out.extend_from_slice(b"at: ")?;
    push_file_place(out, tree, place)?;
    push_curve_in_month(out, tree, rule, place)?;
    out.extend_from_slice(b"\n")
}

// Appends the line of a place without a file.
#[tactic(auto, unfolding(crate::specs::RuleTexts::at_line))]
fn push_plain_at(out: &mut Vec<u8>, place: Place) -> Result<(), AllocError>
    ensures { OnOk result (out.new.items ≡ out.old.items ++ at_line (plain_place place)) }
{
    out.extend_from_slice(b"at: ")?;
    push_plain_place(out, place)?;
    out.extend_from_slice(b"\n")
}

// The lines of a rule that a file breaks at a place.
#[tactic(auto, unfolding(crate::specs::RuleTexts::file_lines))]
fn file_lines(alloc: Global, tree: &Table, rule: Rule, place: Place) -> Result<Vec<u8>, AllocError>
    ensures { IfOk result (λ text. text.items ≡ file_lines (table_view tree.now) rule place) }
{
    let mut text = Vec::new(alloc);
    push_rule_line(&mut text, rule.sentence())?;
    push_file_at(&mut text, tree, rule, place)?;
    push_finding(&mut text, tree, finding_of(tree, rule, place))?;
    Ok(text)
}

// The lines of a rule that a product without a file breaks at a place.
#[tactic(auto, unfolding(crate::specs::RuleTexts::plain_lines))]
fn plain_lines(alloc: Global, rule: Rule, place: Place) -> Result<Vec<u8>, AllocError>
    ensures { IfOk result (λ text. text.items ≡ plain_lines rule place) }
{
    let mut text = Vec::new(alloc);
    push_rule_line(&mut text, rule.sentence())?;
    push_plain_at(&mut text, place)?;
    Ok(text)
}

// The lines of a broken rule of the file with this tree, and none for a number that is no rule's.
#[tactic(auto, unfolding(crate::specs::RuleTexts::rule_text_of))]
fn tree_lines(alloc: Global, tree: &Table, found: RuleBreak) -> Result<Vec<u8>, AllocError>
    ensures { IfOk result (λ text. text.items ≡ rule_text (table_view tree.now) found) }
{
    match Rule::with_number(found.rule) {
        Some(rule) => file_lines(alloc, tree, rule, Place::of_rule(rule, found.place)),
        None => Ok(Vec::new(alloc)),
    }
}

/// The lines of a broken rule of a product that was made of files, and none for a number that is no rule's.
#[tactic(auto, unfolding(crate::specs::RuleTexts::derived_text_of))]
pub fn derived_lines(alloc: Global, found: RuleBreak) -> Result<Vec<u8>, AllocError>
    ensures { IfOk result (λ text. text.items ≡ derived_text found) }
{
    match Rule::with_number(found.rule) {
        Some(rule) => plain_lines(alloc, rule, Place::of_rule(rule, found.place)),
        None => Ok(Vec::new(alloc)),
    }
}

/// The lines of a broken rule of the product file with these bytes, by the file's own names, and none for a number that
/// is no rule's. Bytes that are no TOML text have no names.
pub fn rule_lines(alloc: Global, file: &[u8], found: RuleBreak) -> Result<Vec<u8>, AllocError>
    ensures read { IfOk result (λ text. (tree : Members) → ReadsAs file.now tree → text.items ≡ rule_text tree found) }
    ensures not_toml { IfOk result (λ text. IsNotToml file.now → text.items ≡ derived_text found) }
{
    match toml::table_from_slice(alloc, file) {
        Ok(tree) => tree_lines(alloc, &tree, found),
        Err(error) if error.is_memory() => Err(AllocError),
        Err(_) => derived_lines(alloc, found),
    }
}

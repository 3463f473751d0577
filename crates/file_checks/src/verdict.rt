//! The first broken rule of a tree.

ghost use Rattle.std.specs.Prelude.{◌≡◌, IfOk, IfNone, option_map};
ghost use Rattle.toml.specs.View.{table_view};
ghost use Rattle.model_specs.specs.ValuationRules.{first_given};
ghost use Rattle.product_file.specs.Reads.{broken_in_tree};
ghost use Rattle.rule_breaks.specs.Breaks.{break_of};
ghost use Rattle.file_checks.specs.Broken.{head_breaks, list_breaks, ObeysHead, ObeysLists, ObeysRules};

use crate::bounds::{amount_break, size_break};
use crate::head::{denominator_break, format_break, key_break, start_break, term_break};
use crate::lump::lump_break;
use crate::names::name_break;
use crate::pattern::{pattern_break, payer_break};
use crate::pieces::curve_break;
use crate::steps::payment_break;
use crate::transition::transition_break;
use rule_breaks::RuleBreak;
use std::alloc::{AllocError, Global};
use toml::Table;

// The first broken of rules 1 to 7.
fn head_break(tree: &Table) -> Option<RuleBreak>
    ensures first { option_map break_of result ≡ first_given (head_breaks (table_view tree.now)) }
    ensures none { IfNone result (ObeysHead (table_view tree.now)) }
{
    if let Some(place) = key_break(tree) {
        return Some(RuleBreak { rule: 1, place });
    }
    if let Some(place) = format_break(tree) {
        return Some(RuleBreak { rule: 2, place });
    }
    if let Some(place) = name_break(tree) {
        return Some(RuleBreak { rule: 3, place });
    }
    if let Some(place) = term_break(tree) {
        return Some(RuleBreak { rule: 4, place });
    }
    if let Some(place) = denominator_break(tree) {
        return Some(RuleBreak { rule: 5, place });
    }
    if let Some(place) = start_break(tree) {
        return Some(RuleBreak { rule: 6, place });
    }
    if let Some(place) = transition_break(tree) {
        return Some(RuleBreak { rule: 7, place });
    }
    None
}

// The first broken of rules 8 to 14.
fn list_break(alloc: Global, tree: &Table) -> Result<Option<RuleBreak>, AllocError>
    requires { ObeysHead (table_view tree.now) }
    ensures first { IfOk result (λ b. option_map break_of b ≡ first_given (list_breaks (table_view tree.now))) }
    ensures none { IfOk result (λ b. IfNone b (ObeysLists (table_view tree.now))) }
{
    if let Some(place) = curve_break(tree) {
        return Ok(Some(RuleBreak { rule: 8, place }));
    }
    if let Some(place) = size_break(tree) {
        return Ok(Some(RuleBreak { rule: 9, place }));
    }
    if let Some(place) = payment_break(tree) {
        return Ok(Some(RuleBreak { rule: 10, place }));
    }
    if let Some(place) = amount_break(tree) {
        return Ok(Some(RuleBreak { rule: 11, place }));
    }
    if let Some(place) = lump_break(alloc, tree)? {
        return Ok(Some(RuleBreak { rule: 12, place }));
    }
    if let Some(place) = payer_break(tree) {
        return Ok(Some(RuleBreak { rule: 13, place }));
    }
    if let Some(place) = pattern_break(tree) {
        return Ok(Some(RuleBreak { rule: 14, place }));
    }
    Ok(None)
}

/// The first of rules 1 to 14 that the tree breaks, with its least place. Takes memory for rule 12.
pub fn first_break(alloc: Global, tree: &Table) -> Result<Option<RuleBreak>, AllocError>
    ensures first { IfOk result (λ b. option_map break_of b ≡ broken_in_tree (table_view tree.now)) }
    ensures none { IfOk result (λ b. IfNone b (ObeysRules (table_view tree.now))) }
{
    match head_break(tree) {
        Some(broken) => Ok(Some(broken)),
        None => list_break(alloc, tree),
    }
}

//! Rule 12: the lump sums.

ghost use Rattle.std.specs.Prelude.{◌≡◌, ℕ, ◌<◌, true, false, IfOk, length, None, slice_index_or};
ghost use Rattle.toml.specs.View.{view, table_view};
ghost use Rattle.product_file.specs.Checks.{first_failed};
ghost use Rattle.product_file.specs.HeadRules.{rule_3, rule_4};
ghost use Rattle.product_file.specs.LumpRule.{rule_12};
ghost use Rattle.file_checks.specs.Slots.{is_fair_lump, slot_of, slot_count};

use file_tree::{
    is_from_to, is_table_of, item, lump_keys, lumps, natural_within, state_at, state_index, term,
    whole_of, whole_within,
};
use named_numbers::{MOST_LUMP, MOST_STATES};
use std::alloc::{AllocError, Global};
use toml::{Table, Value};

// Whether the value is a lump of a date of the term, a state and an allowed amount.
fn is_fair_lump(tree: &Table, value: &Value) -> bool
    ensures { result ≡ is_fair_lump (table_view tree.now) (view value.now) }
{
    let is_dated = is_from_to(0, whole_of(tree, "months"), whole_within(value, "month"));
    let is_small = whole_within(value, "amount").unsigned_abs() <= MOST_LUMP;
    let is_lump = is_table_of(value, &lump_keys());
    is_lump & is_dated & state_at(tree, "state", value).is_some() & is_small
}

// A number for the date and the state of a lump.
fn slot_of(tree: &Table, value: &Value) -> usize
    requires names { first_failed (rule_3 (table_view tree.now)) ≡ None }
    requires term { first_failed (rule_4 (table_view tree.now)) ≡ None }
    requires fair { is_fair_lump (table_view tree.now) (view value.now) ≡ true }
    ensures value { result ≡ slot_of (table_view tree.now) (view value.now) }
    ensures within { result < slot_count (table_view tree.now) }
{
    natural_within(value, "month") as usize * MOST_STATES + state_index(tree, "state", value)
}

// The first lump that breaks rule 12, where `seen` has a flag for each date and state, none of which is set.
fn first_bad_lump(tree: &Table, seen: &mut [bool]) -> Option<u32>
    requires names { first_failed (rule_3 (table_view tree.now)) ≡ None }
    requires term { first_failed (rule_4 (table_view tree.now)) ≡ None }
    requires count { length seen.old ≡ slot_count (table_view tree.now) }
    requires unseen { (q : ℕ) → q < length seen.old → slice_index_or seen.old q false ≡ false }
    ensures { result ≡ first_failed (rule_12 (table_view tree.now)) }
{
    let lumps = lumps(tree);
    for k in 0..lumps.len() {
        let value = item(lumps, k);
        if !is_fair_lump(tree, value) {
            return Some(k as u32);
        }
        let slot = slot_of(tree, value);
        if seen[slot] {
            return Some(k as u32);
        }
        seen[slot] = true;
    }
    None
}

/// The first place that breaks rule 12: the number of a lump. Takes memory for a flag for each date and state.
pub(crate) fn lump_break(alloc: Global, tree: &Table) -> Result<Option<u32>, AllocError>
    requires names { first_failed (rule_3 (table_view tree.now)) ≡ None }
    requires term { first_failed (rule_4 (table_view tree.now)) ≡ None }
    ensures { IfOk result (λ place. place ≡ first_failed (rule_12 (table_view tree.now))) }
{
    let count = (term(tree) as usize + 1) * MOST_STATES;
    let mut seen = vec![in alloc; false; count]?;
    Ok(first_bad_lump(tree, &mut seen))
}

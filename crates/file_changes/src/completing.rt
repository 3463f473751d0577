//! Lumps at all dates at which a premium is due.

ghost use Rattle.std.specs.Prelude.{◌≡◌, ◌<◌, ◌≤◌, ◌==◌, ◌&&◌, not, IfOk};
ghost use Rattle.named_numbers.specs.Numbers.{most_months, most_states};
ghost use Rattle.payment_plan.specs.Records.{lumps_of, pattern_rule_of};
ghost use Rattle.payment_plan.specs.Tables.{pays_at_date};
ghost use Rattle.file_changes.specs.Charges as charges;

use payment_plan::{Lump, PatternRule};
use std::alloc::{AllocError, Global};

// Whether a pattern pays at a date.
fn pays_at(rule: &PatternRule, date: u32) -> bool
    ensures { result ≡ pays_at_date (pattern_rule_of rule.now) date }
{
    rule.every != 0 && date < rule.until && date % rule.every == 0
}

/// Whether a pattern pays at a date in a state.
pub(crate) fn is_due(rule: &PatternRule, date: u32, state: usize) -> bool
    ensures { result ≡ charges.is_due (pattern_rule_of rule.now) date state }
{
    pays_at(rule, date) && rule.payers.contains(&state)
}

// Whether a lump has a date and a state.
fn is_at(lump: &Lump, date: u32, state: usize) -> bool
    ensures { result ≡ ((lump.now.month == date) && (lump.now.state == state)) }
{
    lump.month == date && lump.state == state
}

// Whether one of some lumps has a date and a state.
fn has_lump(lumps: &[Lump], date: u32, state: usize) -> bool
    ensures { result ≡ charges.has_lump (lumps_of lumps.now) date state }
{
    for i in 0..lumps.len() {
        if is_at(&lumps[i], date, state) {
            return true;
        }
    }
    false
}

// Whether the premium is due at a date in a state, and none of some lumps is there.
fn is_missing(lumps: &[Lump], rule: &PatternRule, date: u32, state: usize) -> bool
    ensures { result ≡ charges.is_due (pattern_rule_of rule.now) date state
        && not (charges.has_lump (lumps_of lumps.now) date state) }
{
    is_due(rule, date, state) && !has_lump(lumps, date, state)
}

/// Some lumps, and one of nothing wherever the premium is due and none is.
pub(crate) fn completed_lumps(
    alloc: Global,
    lumps: &[Lump],
    rule: &PatternRule,
    states: u32,
) -> Result<Vec<Lump>, AllocError>
    requires some { 0 < states }
    requires most { states ≤ most_states }
    requires until { rule.now.until ≤ most_months }
    ensures { IfOk result (λ all. lumps_of all.items
        ≡ charges.completed_lumps states (lumps_of lumps.now) (pattern_rule_of rule.now)) }
{
    let mut all = lumps.to_vec(alloc)?;
    for place in 0..rule.until * states {
        let date = place / states;
        let state = (place % states) as usize;
        if is_missing(lumps, rule, date, state) {
            all.push(Lump {
                month: date,
                state,
                amount: 0,
            })?;
        }
    }
    Ok(all)
}

//! Lumps less a premium.

ghost use Rattle.std.specs.Prelude.{◌≡◌, ◌≤◌, IfOk, IfSome, IfNone, SomeIff, map, unsigned_abs};
ghost use Rattle.named_numbers.specs.Numbers.{most_lump};
ghost use Rattle.payment_plan.specs.Records.{lump_of, lumps_of, pattern_rule_of};
ghost use Rattle.file_changes.specs.Asks.{AreSmallLumps};
ghost use Rattle.file_changes.specs.Charges as charges;

use crate::completing::is_due;
use named_numbers::{MOST_LUMP, named_numbers_agree};
use payment_plan::{Lump, PatternRule};
use std::alloc::{AllocError, Global};

// An amount of at most 10^12.
fn small(amount: i128) -> Option<i64>
    ensures { SomeIff result (unsigned_abs amount ≤ most_lump) amount }
{
    named_numbers_agree();
    if amount.unsigned_abs() <= u128::from(MOST_LUMP) {
        Some(amount as i64)
    } else {
        None
    }
}

// The amount of a lump, less the premium where that is due.
fn charged_amount(lump: &Lump, rule: &PatternRule, amount: i64) -> i128
    ensures { result ≡ (charges.charged_lump amount (pattern_rule_of rule.now) (lump_of lump.now)).amount }
{
    if is_due(rule, lump.month, lump.state) {
        i128::from(lump.amount) - i128::from(amount)
    } else {
        i128::from(lump.amount)
    }
}

// A lump, less the premium where that is due; none where it is above 10^12.
fn charged_lump(lump: &Lump, rule: &PatternRule, amount: i64) -> Option<Lump>
    ensures changed { IfSome result (λ changed. lump_of changed
        ≡ charges.charged_lump amount (pattern_rule_of rule.now) (lump_of lump.now)) }
    ensures small { IfSome result (λ changed. unsigned_abs changed.amount ≤ most_lump) }
    ensures too_large { IfNone result (¬ (unsigned_abs
        (charges.charged_lump amount (pattern_rule_of rule.now) (lump_of lump.now)).amount ≤ most_lump)) }
{
    let amount = small(charged_amount(lump, rule, amount))?;
    Some(Lump {
        month: lump.month,
        state: lump.state,
        amount,
    })
}

/// Lumps, each less the premium where that is due; none where one is above 10^12.
pub(crate) fn charged_lumps(
    alloc: Global,
    lumps: &[Lump],
    rule: &PatternRule,
    amount: i64,
) -> Result<Option<Vec<Lump>>, AllocError>
    ensures changed { IfOk result (λ found. IfSome found (λ changed. lumps_of changed.items
        ≡ map (charges.charged_lump amount (pattern_rule_of rule.now)) (lumps_of lumps.now))) }
    ensures small { IfOk result (λ found. IfSome found (λ changed. AreSmallLumps (lumps_of changed.items))) }
    ensures too_large { IfOk result (λ found. IfNone found (¬ AreSmallLumps
        (map (charges.charged_lump amount (pattern_rule_of rule.now)) (lumps_of lumps.now)))) }
{
    let mut changed = Vec::new(alloc);
    for i in 0..lumps.len() {
        match charged_lump(&lumps[i], rule, amount) {
            Some(lump) => changed.push(lump)?,
            None => return Ok(None),
        }
    }
    Ok(Some(changed))
}

//! A premium that is charged.

ghost use Rattle.std.specs.Prelude.{◌≡◌, ◌≤◌, ℕ, IfOk, length};
ghost use Rattle.curve_pieces.specs.BrokenRules.{IsFirstBroken};
ghost use Rattle.file_changes.specs.Asks.{ChargeAsks};
ghost use Rattle.file_changes.specs.Charges.{charged};
ghost use Rattle.file_changes.specs.declared.breaks.ChangeBreak as breaks;

use crate::assembly::{with_lumps, with_sojourns};
use crate::breaks::{ChangeBreak, ChangeError};
use crate::charged::charged_lumps;
use crate::charged_sojourns::charged_sojourns;
use crate::completing::completed_lumps;
use crate::going_on::payers_go_on_whole;
use crate::laws::charged_products_are_well_formed;
use crate::sojourners::completed_sojourns;
use product_model::Product;
use std::alloc::Global;

// The product less a premium at dates.
fn charge_at_dates(alloc: Global, product: &Product, amount: i64) -> Result<Product, ChangeError>
    requires payers { 1 ≤ length product.now.pattern.payers }
    requires dated { 1 ≤ product.now.pattern.every }
    ensures ok { IfOk result (λ changed. changed ≡ charged amount product.now) }
    ensures keeps { IfOk result (λ _. (part : ℕ) → ChargeAsks amount product.now part) }
    ensures refused { (broken : breaks.ChangeBreak) → result ≡ Err (ChangeError.Change broken)
        → IsFirstBroken (ChargeAsks amount product.now) broken.part }
{
    charged_products_are_well_formed();
    let plan = product.plan();
    let rule = plan.pattern();
    let states = product.graph().states() as u32;
    let lumps = completed_lumps(alloc, plan.lumps(), rule, states)?;
    let Some(lumps) = charged_lumps(alloc, &lumps, rule, amount)? else {
        return Err(ChangeError::Change(ChangeBreak { part: 5 }));
    };
    Ok(with_lumps(alloc, product, lumps)?)
}

// The product less a continuous premium.
fn charge_continuously(
    alloc: Global,
    product: &Product,
    amount: i64,
) -> Result<Product, ChangeError>
    requires payers { 1 ≤ length product.now.pattern.payers }
    requires continuous { product.now.pattern.every ≡ 0 }
    ensures ok { IfOk result (λ changed. changed ≡ charged amount product.now) }
    ensures keeps { IfOk result (λ _. (part : ℕ) → ChargeAsks amount product.now part) }
    ensures refused { (broken : breaks.ChangeBreak) → result ≡ Err (ChangeError.Change broken)
        → IsFirstBroken (ChargeAsks amount product.now) broken.part }
{
    charged_products_are_well_formed();
    let plan = product.plan();
    let rule = plan.pattern();
    let sojourns = completed_sojourns(alloc, plan, rule)?;
    let months = product.months();
    let Some(sojourns) = charged_sojourns(alloc, &sojourns, rule, months, amount)? else {
        return Err(ChangeError::Change(ChangeBreak { part: 5 }));
    };
    if !payers_go_on_whole(product) {
        return Err(ChangeError::Change(ChangeBreak { part: 6 }));
    }
    Ok(with_sojourns(alloc, product, sojourns)?)
}

/// The product with `amount` minor units for each 1 of its premium pattern taken off its payments: at each date of the
/// pattern the lump of each payer state is less by it, where a lump that is not there counts as 0, and of a continuous
/// premium the sojourn payment of each payer state is less by it, a year, up to the month until. The pattern stays. It
/// is refused by the first part that is broken: 4, there is no premium table; 5, a lump is above 10^12, or a step has a
/// coefficient of more than 64 bits or breaks rule 11; 6, a payer's step that goes on past a continuous premium has no
/// whole coefficients from there. It may break rules 17 and 18.
pub fn charge(alloc: Global, product: &Product, amount: i64) -> Result<Product, ChangeError>
    ensures ok { IfOk result (λ changed. changed ≡ charged amount product.now) }
    ensures keeps { IfOk result (λ _. (part : ℕ) → ChargeAsks amount product.now part) }
    ensures refused { (broken : breaks.ChangeBreak) → result ≡ Err (ChangeError.Change broken)
        → IsFirstBroken (ChargeAsks amount product.now) broken.part }
{
    let rule = product.plan().pattern();
    if rule.payers.is_empty() {
        return Err(ChangeError::Change(ChangeBreak { part: 4 }));
    }
    if rule.every == 0 {
        charge_continuously(alloc, product, amount)
    } else {
        charge_at_dates(alloc, product, amount)
    }
}

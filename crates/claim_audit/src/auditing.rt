//! Audits of claims.

ghost use Rattle.std.specs.Prelude.{◌+◌, ◌*◌, ◌<◌, ◌^◌, pos, ◌≤ℤ◌, unsigned_abs, IfErr, IfOk};
ghost use Rattle.named_numbers.specs.Numbers.{cells_of_month};
ghost use Rattle.claim_audit.specs.Audits.{IsAudit};
ghost use Rattle.claim_audit.specs.Readings.{TellsWrongIn};

use crate::findings::{Claim, findings_of};
use crate::reading::{AuditError, read_claims};
use rate_bounds::Admitted;
use std::alloc::Global;
use std::sync::ledger::Ledger;
use taylor_step::Steps;
use thiele_backward::reserves;

/// What is found of claims about a product. It holds for the runs of this degree and of each greater one.
#[derive(Debug, Drop)]
pub struct Audited {
    pub degree: u8,
    /// In the order of the CSV text.
    pub claims: Vec<Claim>,
}

/// Audits the claims of a CSV text about a product: whether each is at most `eps` millionths away from the exact
/// reserve.
/// The rows are read before the reserves are taken.
pub fn audit<L: Ledger>(
    alloc: Global,
    adm: &Admitted,
    csv: &[u8],
    eps: i128,
    steps: &mut Steps<L>,
) -> Result<Audited, AuditError>
    requires distance { pos 0 ≤ℤ eps }
    requires most { unsigned_abs eps < 2 ^ 120 }
    requires count { steps.old + cells_of_month * adm.now.months < 2 ^ 63 }
    ensures ok { IfOk result (IsAudit adm.now csv.now eps) }
    ensures err { IfErr result (TellsWrongIn adm.now.months adm.now.states csv.now) }
{
    let product = adm.product();
    let claimed = match read_claims(alloc, product.graph(), product.months(), csv) {
        Ok(claimed) => claimed,
        Err(why) => return Err(why),
    };
    let Ok(table) = reserves(alloc, adm, 1, steps) else {
        return Err(AuditError::Memory);
    };
    let Ok(claims) = findings_of(alloc, &table, &claimed, eps) else {
        return Err(AuditError::Memory);
    };
    Ok(Audited {
        degree: table.degree,
        claims,
    })
}

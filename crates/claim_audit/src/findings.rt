// What is found of claims.
ghost use Rattle.std.specs.Prelude.{pos, ◌≤ℤ◌, ◌<◌, ◌^◌, All, IfOk, unsigned_abs};
ghost use Rattle.fixed_interval.specs.Printing.{AreEndsUpTo};
ghost use Rattle.claim_audit.specs.Findings.{AreFound, HasNumber, IsFound};

use crate::claims::Claimed;
use crate::finding::{Finding, mark};
use fixed_interval::{Printed, Table};
use std::alloc::{AllocError, Global};

/// A claim and what is found of it. The claim and the ends of the exact number are in millionths of a minor unit.
#[derive(Clone, Copy, Debug, PartialEq, Eq)]
pub struct Claim {
    /// Months from issue.
    pub month: u32,
    /// The state's index in the file's list of states.
    pub state: u32,
    pub claim: i128,
    /// Rounded down.
    pub lo: i128,
    /// Rounded up.
    pub hi: i128,
    pub mark: Finding,
}

// What is found of a claim by the ends of its number.
fn found(claimed: &Claimed, ends: &Printed, eps: i128) -> Claim
    requires claim { unsigned_abs claimed.now.claim < 2 ^ 120 }
    requires distance { pos 0 ≤ℤ eps }
    requires most { unsigned_abs eps < 2 ^ 120 }
    requires ordered { ends.now.lo ≤ℤ ends.now.hi }
    requires small { AreEndsUpTo (2 ^ 79) ends.now }
    ensures { IsFound claimed.now ends.now eps result }
{
    Claim {
        month: claimed.month,
        state: claimed.state,
        claim: claimed.claim,
        lo: ends.lo,
        hi: ends.hi,
        mark: mark(claimed.claim, eps, ends.lo, ends.hi),
    }
}

/// What is found of each claim by a table of every month, in their order.
pub fn findings_of(
    alloc: Global,
    table: &Table,
    claimed: &[Claimed],
    eps: i128,
) -> Result<Vec<Claim>, AllocError>
    requires numbers { All (HasNumber table.now) claimed.now }
    requires distance { pos 0 ≤ℤ eps }
    requires most { unsigned_abs eps < 2 ^ 120 }
    ensures { IfOk result (λ claims. AreFound table.now eps claimed.now claims.items) }
{
    let mut claims = Vec::new(alloc);
    for claim in claimed {
        let place = claim.month as usize * table.states + claim.state as usize;
        claims.push(found(claim, &table.cells[place], eps))?;
    }
    Ok(claims)
}

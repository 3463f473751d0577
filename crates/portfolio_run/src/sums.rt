// Sums of reserves by group.
ghost use Rattle.std.specs.Prelude.{◌≡◌, ◌+◌, ◌*◌, ◌^◌, ◌<◌, ◌≤◌, pos, ◌+ℤ◌, ◌*ℤ◌, All, length, unsigned_abs};
ghost use Rattle.std.specs.Prelude.{IfErr, IfOk};
ghost use Rattle.portfolio_run.specs.Sums.{AreSums, HasPlace, TellsMissing};
ghost use Rattle.portfolio_run.specs.Stored.{most_bytes};

use crate::policies::Policy;
use crate::reading::PolicyError;
use crate::valued::{Reserve, ValuedFile};
use rule_breaks::RowBreak;
use std::alloc::Global;

/// The ends of a sum of reserves, and how far they may lie apart, in millionths of a minor unit.
#[derive(Clone, Copy)]
pub(crate) struct Sum {
    pub lo: i128,
    pub hi: i128,
    pub tol: u128,
}

// The sum of nothing.
const NOTHING: Sum = Sum {
    lo: 0,
    hi: 0,
    tol: 0,
};

// A number, and so many times another one.
fn plus(number: i128, count: u32, other: i128) -> i128
    requires number { unsigned_abs number ≤ 2 ^ 120 }
    requires count { count ≤ 10 ^ 6 }
    requires other { unsigned_abs other ≤ 2 ^ 79 }
    ensures { result ≡ number +ℤ (pos count *ℤ other) }
{
    number + i128::from(count) * other
}

impl Sum {
    // The sum, and so many reserves more.
    fn with(self, count: u32, reserve: Reserve) -> Sum
        requires lo { unsigned_abs self.lo ≤ 2 ^ 120 }
        requires hi { unsigned_abs self.hi ≤ 2 ^ 120 }
        requires tol { self.tol ≤ 2 ^ 120 }
        requires count { count ≤ 10 ^ 6 }
        requires reserve_lo { unsigned_abs reserve.lo ≤ 2 ^ 79 }
        requires reserve_hi { unsigned_abs reserve.hi ≤ 2 ^ 79 }
        requires reserve_tol { reserve.tol ≤ 2 ^ 58 }
        ensures lo { result.lo ≡ self.lo +ℤ (pos count *ℤ reserve.lo) }
        ensures hi { result.hi ≡ self.hi +ℤ (pos count *ℤ reserve.hi) }
        ensures tol { result.tol ≡ self.tol + count * reserve.tol }
    {
        Sum {
            lo: plus(self.lo, count, reserve.lo),
            hi: plus(self.hi, count, reserve.hi),
            tol: self.tol + u128::from(count) * reserve.tol,
        }
    }
}

/// The sum of each group over holdings, or the first row whose product has not its date or its state.
pub(crate) fn sums_of(
    alloc: Global,
    policies: &[Policy],
    valued: &[ValuedFile],
    groups: usize,
) -> Result<Vec<Sum>, PolicyError>
    requires places { All (HasPlace (length valued.now) groups) policies.now }
    requires few { length policies.now ≤ most_bytes }
    ensures ok { IfOk result (λ sums. AreSums valued.now policies.now groups sums.items) }
    ensures err { IfErr result (TellsMissing valued.now policies.now) }
{
    let Ok(mut sums) = vec![in alloc; NOTHING; groups] else {
        return Err(PolicyError::Memory);
    };
    for i in 0..policies.len() {
        let policy = &policies[i];
        match valued[policy.file].reserve(policy.month, &policy.state) {
            Ok(reserve) => {
                sums[policy.group] = sums[policy.group].with(policy.count, reserve);
            }
            Err(missing) => {
                return Err(PolicyError::Row(RowBreak {
                    row: i as u64 + 1,
                    part: missing.part(),
                }));
            }
        }
    }
    Ok(sums)
}

//! The steps of two tables: no program can read a counter, so what they are is proved and not run.

ghost use Rattle.std.specs.Prelude.{◌≡◌, ◌+◌, ◌^◌, ◌<◌, pos, IfOk};
ghost use Rattle.model_laws.specs.Examples.{ring_of_eight, linear_decrement};

use crate::month_reserves;
use fixed_interval::Table;
use model_laws::century_ledgers;
use rate_bounds::Admitted;
use std::alloc::{AllocError, Global};
use std::sync::ledger::Ledger;
use taylor_step::Steps;

// A ring of eight states over a century, in which nothing varies: the steps of one map, 8 + 1.
fn century_of_the_ring<L: Ledger>(
    alloc: Global,
    ring: &Admitted,
    steps: &mut Steps<L>,
) -> Result<Table, AllocError>
    requires ring { ring.now ≡ ring_of_eight 1200 (pos 2000000) }
    requires count { steps.old + 38400 < 2 ^ 63 }
    ensures { IfOk result (λ table. steps.new ≡ steps.old + 9) }
{
    century_ledgers();
    let table = month_reserves(alloc, ring, 12, steps)?;
    Ok(table)
}

// Ten years of an intensity that rises: 32 steps in each month.
fn ten_years_of_a_rising_rate<L: Ledger>(
    alloc: Global,
    rising: &Admitted,
    steps: &mut Steps<L>,
) -> Result<Table, AllocError>
    requires rising { rising.now ≡ linear_decrement 120 50 (pos 0) (pos 1) }
    requires count { steps.old + 38400 < 2 ^ 63 }
    ensures { IfOk result (λ table. steps.new ≡ steps.old + 3840) }
{
    century_ledgers();
    let table = month_reserves(alloc, rising, 12, steps)?;
    Ok(table)
}

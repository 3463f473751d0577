//! Many steps, one after another, each from a start of its own.

ghost use Rattle.std.specs.Prelude.{◌≡◌, ◌<◌, ◌^◌, length};
ghost use Rattle.linear_system.specs.StoredSystem.{dim_of};
ghost use Rattle.step_bench.specs.Small.{IsSmallSystem};
ghost use Rattle.taylor_step.specs.CanStep.{AreAtMost};

use crate::systems::sample;
use linear_system::CellSystem;
use std::alloc::{AllocError, Global};
use std::sync::ledger::{Blank, Ledger};
use taylor_step::{Steps, Work, step};

const ONE: i128 = 1 << 64;

fn write_start(mid: &mut [i128], round: u32)
    ensures { AreAtMost (2 ^ 65) mid.new }
{
    for i in 0..mid.len() {
        mid[i] = ONE - i128::from(round);
    }
}

fn folded(total: i128, mid: &[i128]) -> i128 {
    let mut sum = total;
    for x in mid {
        sum = sum.wrapping_mul(31).wrapping_add(*x);
    }
    sum
}

fn run<L: Ledger>(
    system: &CellSystem,
    mid: &mut [i128],
    work: &mut Work,
    rounds: u32,
    steps: &mut Steps<L>,
) -> i128
    requires system { IsSmallSystem system.now }
    requires mid { length mid.old ≡ dim_of system.now }
    requires work { work.old ≡ dim_of system.now }
    requires count { steps.old ≡ 0 }
{
    let _degree = system.degree();
    let mut total = 0;
    for round in 0..rounds {
        write_start(mid, round);
        let _degree = step(system, mid, work, steps);
        total = folded(total, mid);
    }
    total
}

/// What the numbers of that many steps of the system of 3 or of 12 states come to.
pub fn answer<L: Ledger>(
    alloc: Global,
    dim: usize,
    rounds: u32,
    blank: Blank,
) -> Result<i128, AllocError>
    requires name { blank.name ≡ L.name }
    requires parts { blank.parts ≡ L.parts }
    requires some { 0 < blank.parts }
{
    let system = sample(alloc, dim == 3)?;
    let mut work = Work::new(alloc, system.dim())?;
    let mut mid = vec![in alloc; 0; system.dim()]?;
    let mut steps = Steps::<L>::open(blank);
    Ok(run(&system, &mut mid, &mut work, rounds, &mut steps))
}

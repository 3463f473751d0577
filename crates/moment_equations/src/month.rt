//! A month backward, of both moments.

ghost use Rattle.std.specs.Prelude.{◌≡◌, ℕ, ◌+◌, ◌^◌, ◌<◌, ◌≤◌, length, IsTrue};
ghost use Rattle.named_numbers.specs.Numbers.{cells_of_month, least_degree, highest_degree};
ghost use Rattle.linear_system.specs.Setting.{HaveSamePlaces};
ghost use Rattle.model_specs.specs.Payments.{payment_plan};
ghost use Rattle.model_specs.specs.Stretches.{is_constant_month};
ghost use Rattle.cell_coeffs.specs.PairRows.{IsMadeForMoments};
ghost use Rattle.moment_equations.specs.NearMoments.{months_behind, AreNear, AreNearIn, StaysNear, EnclosesMonth};

use cell_coeffs::{apply_first, apply_second, fill_moments};
use linear_system::CellSystem;
use named_numbers::{CELLS_OF_MONTH, LEAST_DEGREE};
use payment_plan::Which;
use rate_bounds::Admitted;
use std::sync::ledger::Ledger;
use taylor_step::{Steps, Work, step};

// Adds the lumps of a month's end: to the second moments by the first ones before the lumps, and then to these. Takes
// no memory.
fn add_lumps(adm: &Admitted, month: u32, mid: &mut [i128])
    requires month { month < adm.now.months }
    requires mid { length mid.old ≡ length adm.now.states + length adm.now.states }
    requires near { AreNear adm.now highest_degree (months_behind adm.now month) mid.old }
    ensures { (n : ℕ) → AreNear adm.now n (months_behind adm.now month) mid.old
        → AreNearIn adm.now n (months_behind adm.now month) 0 mid.new }
{
    let lumps = adm.product().plan().lumps_at(Which::Benefits, month + 1);
    let g = adm.scale(Which::Benefits);
    let (first, second) = mid.split_at_mut(adm.product().graph().states());
    apply_second(lumps, g, first, second);
    apply_first(lumps, g, first);
}

// Goes back over the cells of a month, the last one first, and answers the greatest degree of its steps. Takes no
// memory.
fn cells_over<L: Ledger>(
    adm: &Admitted,
    month: u32,
    system: &mut CellSystem,
    mid: &mut [i128],
    work: &mut Work,
    steps: &mut Steps<L>,
) -> u8
    requires month { month < adm.now.months }
    requires made { IsMadeForMoments adm.now system.old }
    requires mid { length mid.old ≡ length adm.now.states + length adm.now.states }
    requires work { work.old ≡ length adm.now.states + length adm.now.states }
    requires count { steps.old + cells_of_month < 2 ^ 63 }
    requires near { AreNearIn adm.now highest_degree (months_behind adm.now month) 0 mid.old }
    ensures near { StaysNear adm.now (months_behind adm.now month) result cells_of_month mid.old mid.new }
    ensures least { least_degree ≤ result }
    ensures highest { result ≤ highest_degree }
    ensures constant { IsTrue (is_constant_month adm.now (payment_plan adm.now) month) → result ≤ least_degree + 1 }
    ensures count { steps.new ≡ steps.old + cells_of_month }
    ensures work { work.new ≡ work.old }
    ensures places { HaveSamePlaces system.old system.new }
{
    let g = adm.scale(Which::Benefits);
    let mut degree = LEAST_DEGREE;
    for done in 0..CELLS_OF_MONTH {
        let cell = CELLS_OF_MONTH - 1 - done;
        fill_moments(adm.product(), g, month, cell, system);
        let answered = step(system, mid, work, steps);
        degree = degree.max(answered);
    }
    degree
}

// Adds the lumps of a month's end, goes back over its cells, and answers the greatest degree of its steps. Takes no
// memory.
pub(crate) fn month_over<L: Ledger>(
    adm: &Admitted,
    month: u32,
    system: &mut CellSystem,
    mid: &mut [i128],
    work: &mut Work,
    steps: &mut Steps<L>,
) -> u8
    requires month { month < adm.now.months }
    requires made { IsMadeForMoments adm.now system.old }
    requires mid { length mid.old ≡ length adm.now.states + length adm.now.states }
    requires work { work.old ≡ length adm.now.states + length adm.now.states }
    requires count { steps.old + cells_of_month < 2 ^ 63 }
    requires near { AreNear adm.now highest_degree (months_behind adm.now month) mid.old }
    ensures near { EnclosesMonth adm.now (months_behind adm.now month) result mid.old mid.new }
    ensures least { least_degree ≤ result }
    ensures highest { result ≤ highest_degree }
    ensures constant { IsTrue (is_constant_month adm.now (payment_plan adm.now) month) → result ≤ least_degree + 1 }
    ensures count { steps.new ≡ steps.old + cells_of_month }
    ensures work { work.new ≡ work.old }
    ensures places { HaveSamePlaces system.old system.new }
{
    add_lumps(adm, month, mid);
    cells_over(adm, month, system, mid, work, steps)
}

//! A month forward.

ghost use Rattle.std.specs.Prelude.{◌≡◌, ◌+◌, ◌^◌, ◌<◌, ◌≤◌, suc, length, IsTrue};
ghost use Rattle.named_numbers.specs.Numbers.{cells_of_month, least_degree, highest_degree};
ghost use Rattle.linear_system.specs.Setting.{HaveSamePlaces};
ghost use Rattle.model_specs.specs.Payments.{payment_plan};
ghost use Rattle.model_specs.specs.Stretches.{is_constant_month};
ghost use Rattle.cell_coeffs.specs.ForwardColumns.{IsMadeForward};
ghost use Rattle.kolmogorov_forward.specs.MonthRuns.{AreNearAt};

use cell_coeffs::fill_forward;
use linear_system::CellSystem;
use named_numbers::CELLS_OF_MONTH;
use rate_bounds::Admitted;
use std::sync::ledger::Ledger;
use taylor_step::{Steps, Work, step};

// Goes over the cells of a month, the first one first, from numbers that are near the runs of each degree from one on.
// Answers the greatest of this degree and those of its steps, from which on the new numbers are. Takes no memory.
pub(crate) fn month_over<L: Ledger>(
    adm: &Admitted,
    month: u32,
    degree: u8,
    system: &mut CellSystem,
    mid: &mut [i128],
    work: &mut Work,
    steps: &mut Steps<L>,
) -> u8
    requires month { month < adm.now.months }
    requires least { least_degree ≤ degree }
    requires highest { degree ≤ highest_degree }
    requires made { IsMadeForward adm.now system.old }
    requires mid { length mid.old ≡ length adm.now.states }
    requires work { work.old ≡ length adm.now.states }
    requires count { steps.old + cells_of_month < 2 ^ 63 }
    requires near { AreNearAt adm.now degree month mid.old }
    ensures near { AreNearAt adm.now result (suc month) mid.new }
    ensures least { degree ≤ result }
    ensures highest { result ≤ highest_degree }
    ensures constant { IsTrue (is_constant_month adm.now (payment_plan adm.now) month) → result ≡ degree }
    ensures count { steps.new ≡ steps.old + cells_of_month }
    ensures work { work.new ≡ work.old }
    ensures places { HaveSamePlaces system.old system.new }
{
    let mut greatest = degree;
    for cell in 0..CELLS_OF_MONTH {
        fill_forward(adm.product(), month, cell, system);
        let answered = step(system, mid, work, steps);
        greatest = greatest.max(answered);
    }
    greatest
}

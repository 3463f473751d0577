//! Tables of probabilities, by date and state.

ghost use Rattle.std.specs.Prelude.{◌≡◌, ℕ, ◌+◌, ◌*◌, ◌/◌, ◌^◌, ◌<◌, ◌≤◌, IfOk, OnErr, length};
ghost use Rattle.named_numbers.specs.Numbers.{cells_of_month, least_degree};
ghost use Rattle.model_specs.specs.Payments.{payment_plan};
ghost use Rattle.limit_laws.specs.Modulus.{ProbabilitiesConverge};
ghost use Rattle.limit_laws.specs.Defect.{NearlySolvesKolmogorov};
ghost use Rattle.thiele_backward.specs.Results.{AreConstantMonths};
ghost use Rattle.kolmogorov_forward.specs.Results.{AreOccupancies, BeginsInStart};
ghost use Rattle.kolmogorov_forward.specs.Dates.{HasDate, KeepsRowsBelow};

use crate::equations::runs_obey_kolmogorov;
use crate::sweep::Sweep;
use fixed_interval::{Printed, Table};
use rate_bounds::Admitted;
use std::alloc::{AllocError, Global};
use std::sync::ledger::Ledger;
use taylor_step::Steps;

// Ends that are not written yet.
const NOTHING: Printed = Printed { lo: 0, hi: 0 };

// Writes the probabilities at a sweep's date, in the table's row of this number.
fn write_date(cells: &mut [Printed], row: usize, states: usize, sweep: &Sweep)
    requires states { states ≡ length sweep.now.product.states }
    requires room { (row + 1) * states ≤ length cells.old }
    ensures written { HasDate sweep.now.product sweep.now.degree sweep.now.date row cells.new }
    ensures kept { KeepsRowsBelow row states cells.old cells.new }
{
    for state in 0..states {
        cells[row * states + state] = sweep.enclosure(state).printed();
    }
}

// Writes the probabilities at a sweep's date, if the table has it.
fn keep_date(cells: &mut [Printed], every: u32, states: usize, sweep: &Sweep)
    requires every { 0 < every }
    requires states { states ≡ length sweep.now.product.states }
    requires room { (sweep.now.date / every + 1) * states ≤ length cells.old }
    ensures written { (row : ℕ) → row * every ≡ sweep.now.date
        → HasDate sweep.now.product sweep.now.degree sweep.now.date row cells.new }
    ensures kept { (row : ℕ) → row * every < sweep.now.date → KeepsRowsBelow (row + 1) states cells.old cells.new }
{
    let date = sweep.date();
    if date % every == 0 {
        write_date(cells, (date / every) as usize, states, sweep);
    }
}

/// The probabilities of all states at the dates 0, `every`, 2 `every` and so on, up to the term, from the start state
/// at issue. It takes 32 steps a month, and memory for the table and one month before the first step.
pub fn occupancy<L: Ledger>(
    alloc: Global,
    adm: &Admitted,
    every: u32,
    steps: &mut Steps<L>,
) -> Result<Table, AllocError>
    requires every { 0 < every }
    requires count { steps.old + cells_of_month * adm.now.months < 2 ^ 63 }
    ensures occupancy { IfOk result (AreOccupancies adm.now every) }

    // At issue both ends are 1 in the start state, and 0 in the others.
    ensures issue { IfOk result (BeginsInStart adm.now) }
    ensures constant { AreConstantMonths adm.now (payment_plan adm.now)
        → IfOk result (λ table. table.degree ≡ least_degree) }

    // At each date the probabilities of two degrees from 8 on differ, all states together, by at most Wf / 2^13,
    // divided by 8^n, Wf being the forward radius of the date, and the run of degree n solves Kolmogorov's equation in
    // each cell but for a defect of at most 8^-n.
    ensures modulus { ProbabilitiesConverge adm.now }
    ensures defect { NearlySolvesKolmogorov adm.now }
    ensures count { IfOk result (λ table. steps.new ≡ steps.old + cells_of_month * adm.now.months) }
    ensures refused { OnErr result (steps.new ≡ steps.old) }
{
    runs_obey_kolmogorov(adm);
    let mut sweep = Sweep::prepare(alloc, adm)?;
    let states = adm.product().graph().states();
    let months = adm.product().months();
    let mut cells = vec![in alloc; NOTHING; (months / every + 1) as usize * states]?;
    keep_date(&mut cells, every, states, &sweep);
    for _month in 0..months {
        sweep.month_forward(adm, steps);
        keep_date(&mut cells, every, states, &sweep);
    }
    Ok(Table {
        degree: sweep.degree(),
        every,
        states,
        cells,
    })
}

//! Tables of reserves, by date and state.

ghost use Rattle.std.specs.Prelude.{◌≡◌, ℕ, ◌+◌, ◌*◌, ◌/◌, ◌^◌, ◌<◌, ◌≤◌, IfOk, OnErr, length};
ghost use Rattle.named_numbers.specs.Numbers.{cells_of_month, least_degree};
ghost use Rattle.model_specs.specs.Payments.{payment_plan};
ghost use Rattle.model_specs.specs.Stretches.{cost};
ghost use Rattle.limit_laws.specs.Modulus.{ReservesConverge};
ghost use Rattle.limit_laws.specs.Defect.{NearlySolvesThiele};
ghost use Rattle.thiele_backward.specs.Results.{AreReserves, HoldAroundReserves, AreConstantMonths};
ghost use Rattle.thiele_backward.specs.Dates.{SweepsReserves, HasDate, KeepsRowsFrom};
ghost use Rattle.thiele_backward.specs.StretchMaps.{RisesAtMost};

use crate::costs::cost_splits;
use crate::equations::runs_obey_thiele;
use crate::sweep::Sweep;
use fixed_interval::{Printed, Table};
use named_numbers::LEAST_DEGREE;
use payment_plan::Which;
use rate_bounds::Admitted;
use std::alloc::{AllocError, Global};
use std::sync::ledger::Ledger;
use taylor_step::Steps;

// Ends that are not written yet.
const NOTHING: Printed = Printed { lo: 0, hi: 0 };

// Writes the values at a sweep's date, in the table's row of this number.
fn write_date(cells: &mut [Printed], row: usize, states: usize, sweep: &Sweep)
    requires states { states ≡ length sweep.now.product.states }
    requires room { (row + 1) * states ≤ length cells.old }
    requires reserves { SweepsReserves sweep.now }
    ensures written { HasDate sweep.now.product sweep.now.degree sweep.now.months_left row cells.new }
    ensures kept { KeepsRowsFrom (row + 1) states cells.old cells.new }
{
    for state in 0..states {
        cells[row * states + state] = sweep.enclosure(state).printed();
    }
}

// Writes the values at a sweep's date, if the table has it.
fn keep_date(cells: &mut [Printed], every: u32, states: usize, sweep: &Sweep)
    requires every { 0 < every }
    requires states { states ≡ length sweep.now.product.states }
    requires room { (sweep.now.months_left / every + 1) * states ≤ length cells.old }
    requires reserves { SweepsReserves sweep.now }
    ensures written { (row : ℕ) → row * every ≡ sweep.now.months_left
        → HasDate sweep.now.product sweep.now.degree sweep.now.months_left row cells.new }
    ensures kept { KeepsRowsFrom (sweep.now.months_left / every + 1) states cells.old cells.new }
{
    let date = sweep.months_left();
    if date % every == 0 {
        write_date(cells, (date / every) as usize, states, sweep);
    }
}

/// The reserves of all states at the dates 0, `every`, 2 `every` and so on, up to the term, each without the lump of
/// its date. It takes as many steps as there are states and one for each stretch of months in which nothing varies, 32
/// for each other month, and memory for the table, a month and the maps of the stretches.
pub fn reserves<L: Ledger>(
    alloc: Global,
    adm: &Admitted,
    every: u32,
    steps: &mut Steps<L>,
) -> Result<Table, AllocError>
    requires every { 0 < every }
    requires count { steps.old + cells_of_month * adm.now.months < 2 ^ 63 }
    ensures reserves { IfOk result (AreReserves adm.now every) }

    // Before the term the ends leave a unit of 2^-64 free, at the plan's scale.
    ensures around { IfOk result (HoldAroundReserves adm.now every) }
    ensures constant { AreConstantMonths adm.now (payment_plan adm.now)
        → IfOk result (λ table. table.degree ≡ least_degree) }

    // The reserves of two degrees from 8 on differ by at most G W / 2^13, divided by 8^n, W being the radius of the
    // date, and the run of degree n solves Thiele's equation in each cell but for a defect of at most 8^-n.
    ensures modulus { ReservesConverge adm.now (payment_plan adm.now) }
    ensures defect { NearlySolvesThiele adm.now (payment_plan adm.now) }
    ensures count { IfOk result (λ table. steps.new ≡ steps.old + cost adm.now (payment_plan adm.now)) }
    ensures refused { OnErr result (RisesAtMost steps.old (cost adm.now (payment_plan adm.now)) steps.new) }
    ensures count_at_most { steps.new ≤ steps.old + cells_of_month * adm.now.months }
{
    runs_obey_thiele(adm, Which::Benefits);
    cost_splits(adm, Which::Benefits);
    let mut sweep = Sweep::prepare(alloc, adm, Which::Benefits, steps)?;
    let states = adm.product().graph().states();
    let months = adm.product().months();
    let mut cells = vec![in alloc; NOTHING; (months / every + 1) as usize * states]?;
    let mut degree = LEAST_DEGREE;
    keep_date(&mut cells, every, states, &sweep);
    for _month in 0..months {
        let row = sweep.month_back(adm, steps);
        degree = degree.max(row.degree);
        keep_date(&mut cells, every, states, &sweep);
    }
    Ok(Table {
        degree,
        every,
        states,
        cells,
    })
}

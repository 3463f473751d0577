//! A month backward.

ghost use Rattle.std.specs.Prelude.{◌≡◌, ◌+◌, ◌^◌, ◌<◌, ◌≤◌, suc, length, IsTrue, MatchOption};
ghost use Rattle.frac_laws.specs.Lists.{Vector};
ghost use Rattle.named_numbers.specs.Numbers.{cells_of_month, least_degree, highest_degree};
ghost use Rattle.linear_system.specs.Setting.{HaveSamePlaces};
ghost use Rattle.model_specs.specs.Stretches.{is_constant_month};
ghost use Rattle.model_specs.specs.ValuationRules.{IsAdmissible};
ghost use Rattle.rate_bounds.specs.MonthPay.{plan_named};
ghost use Rattle.cell_coeffs.specs.Rows.{IsMadeForFirst};
ghost use Rattle.constant_months.specs.Costs.{cell_steps};
ghost use Rattle.thiele_backward.specs.StretchMaps.{IsMonthsMap, Varies};
ghost use Rattle.thiele_backward.specs.MonthRuns.{IsNearAt, IsNearLumped, HasSome, StaysNearWithSpare, EnclosesMonth};

use cell_coeffs::{Job, apply_first, fill};
use linear_system::CellSystem;
use month_maps::MonthMap;
use named_numbers::{CELLS_OF_MONTH, LEAST_DEGREE};
use payment_plan::Which;
use rate_bounds::Admitted;
use std::sync::ledger::Ledger;
use taylor_step::{Steps, Work, step};

// Adds the lumps of a month's end. Takes no memory.
fn add_lumps(adm: &Admitted, which: Which, month: u32, mid: &mut [i128])
    requires month { month < adm.now.months }
    requires mid { length mid.old ≡ length adm.now.states }
    requires some { HasSome (IsNearAt adm.now (plan_named which adm.now) (suc month) mid.old) }
    ensures lumped { (v : Vector) → IsNearAt adm.now (plan_named which adm.now) (suc month) mid.old v
        → IsNearLumped adm.now (plan_named which adm.now) month mid.new v }
    ensures some { HasSome (IsNearLumped adm.now (plan_named which adm.now) month mid.new) }
    ensures admissible { IsAdmissible adm.now }
{
    let lumps = adm.product().plan().lumps_at(which, month + 1);
    apply_first(lumps, adm.scale(which), mid);
}

// Goes back over the cells of a month, the last one first, and answers the greatest degree of its steps. Takes no
// memory.
fn cells_over<L: Ledger>(
    adm: &Admitted,
    which: Which,
    month: u32,
    system: &mut CellSystem,
    mid: &mut [i128],
    work: &mut Work,
    steps: &mut Steps<L>,
) -> u8
    requires month { month < adm.now.months }
    requires made { IsMadeForFirst adm.now system.old }
    requires mid { length mid.old ≡ length adm.now.states }
    requires work { work.old ≡ length adm.now.states }
    requires count { steps.old + cells_of_month < 2 ^ 63 }
    requires some { HasSome (IsNearLumped adm.now (plan_named which adm.now) month mid.old) }
    ensures near { StaysNearWithSpare adm.now (plan_named which adm.now) month result cells_of_month mid.old mid.new }
    ensures least { least_degree ≤ result }
    ensures highest { result ≤ highest_degree }
    ensures constant { IsTrue (is_constant_month adm.now (plan_named which adm.now) month) → result ≡ least_degree }
    ensures count { steps.new ≡ steps.old + cells_of_month }
    ensures work { work.new ≡ work.old }
    ensures places { HaveSamePlaces system.old system.new }
{
    let g = adm.scale(which);
    let mut degree = LEAST_DEGREE;
    for done in 0..CELLS_OF_MONTH {
        let cell = CELLS_OF_MONTH - 1 - done;
        fill(adm.product(), g, month, cell, Job::First(which), system);
        let answered = step(system, mid, work, steps);
        degree = degree.max(answered);
    }
    degree
}

// Adds the lumps of a month's end, goes back over its cells, and answers the greatest degree of its steps. Takes no
// memory.
fn month_by_cells<L: Ledger>(
    adm: &Admitted,
    which: Which,
    month: u32,
    system: &mut CellSystem,
    mid: &mut [i128],
    work: &mut Work,
    steps: &mut Steps<L>,
) -> u8
    requires month { month < adm.now.months }
    requires made { IsMadeForFirst adm.now system.old }
    requires mid { length mid.old ≡ length adm.now.states }
    requires work { work.old ≡ length adm.now.states }
    requires count { steps.old + cells_of_month < 2 ^ 63 }
    requires some { HasSome (IsNearAt adm.now (plan_named which adm.now) (suc month) mid.old) }
    ensures near { EnclosesMonth adm.now (plan_named which adm.now) month result mid.old mid.new }
    ensures least { least_degree ≤ result }
    ensures highest { result ≤ highest_degree }
    ensures constant { IsTrue (is_constant_month adm.now (plan_named which adm.now) month) → result ≡ least_degree }
    ensures count { steps.new ≡ steps.old + cells_of_month }
    ensures work { work.new ≡ work.old }
    ensures places { HaveSamePlaces system.old system.new }
{
    add_lumps(adm, which, month, mid);
    cells_over(adm, which, month, system, mid, work, steps)
}

// Adds the lumps of the end of a month in which nothing varies, applies its map, and answers the map's degree. Takes no
// step and no memory.
fn month_by_map(adm: &Admitted, which: Which, month: u32, map: &MonthMap, mid: &mut [i128]) -> u8
    requires month { month < adm.now.months }
    requires map { IsMonthsMap adm.now (plan_named which adm.now) month map.now }
    requires mid { length mid.old ≡ length adm.now.states }
    requires some { HasSome (IsNearAt adm.now (plan_named which adm.now) (suc month) mid.old) }
    ensures near { EnclosesMonth adm.now (plan_named which adm.now) month result mid.old mid.new }
    ensures degree { result ≡ least_degree }
{
    add_lumps(adm, which, month, mid);
    map.apply(mid);
    map.degree()
}

// Adds the lumps of a month's end and goes back over the month, by its map where it has one and else by its cells, and
// answers the greatest degree of its steps. Takes no memory.
pub(crate) fn month_over<L: Ledger>(
    adm: &Admitted,
    which: Which,
    month: u32,
    map: Option<&MonthMap>,
    system: &mut CellSystem,
    mid: &mut [i128],
    work: &mut Work,
    steps: &mut Steps<L>,
) -> u8
    requires month { month < adm.now.months }
    requires map { MatchOption map (Varies adm.now (plan_named which adm.now) month)
        (λ m. IsMonthsMap adm.now (plan_named which adm.now) month m.now) }
    requires made { IsMadeForFirst adm.now system.old }
    requires mid { length mid.old ≡ length adm.now.states }
    requires work { work.old ≡ length adm.now.states }
    requires count { steps.old + cell_steps adm.now (plan_named which adm.now) month < 2 ^ 63 }
    requires some { HasSome (IsNearAt adm.now (plan_named which adm.now) (suc month) mid.old) }
    ensures near { EnclosesMonth adm.now (plan_named which adm.now) month result mid.old mid.new }
    ensures least { least_degree ≤ result }
    ensures highest { result ≤ highest_degree }
    ensures constant { IsTrue (is_constant_month adm.now (plan_named which adm.now) month) → result ≡ least_degree }
    ensures count { steps.new ≡ steps.old + cell_steps adm.now (plan_named which adm.now) month }
    ensures work { work.new ≡ work.old }
    ensures places { HaveSamePlaces system.old system.new }
{
    match map {
        Some(map) => month_by_map(adm, which, month, map, mid),
        None => month_by_cells(adm, which, month, system, mid, work, steps),
    }
}

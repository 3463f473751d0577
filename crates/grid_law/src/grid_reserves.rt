//! Tables of reserves on both grids.

ghost use Rattle.std.specs.Prelude.{◌≡◌, ◌+◌, ◌*◌, ◌^◌, ◌<◌, ◌≤◌, IfOk, OnErr};
ghost use Rattle.named_numbers.specs.Numbers.{cells_of_month, least_degree};
ghost use Rattle.model_specs.specs.Payments.{payment_plan};
ghost use Rattle.model_specs.specs.Stretches.{cost};
ghost use Rattle.thiele_backward.specs.Results.{AreReserves, AreConstantMonths};
ghost use Rattle.thiele_backward.specs.StretchMaps.{RisesAtMost};
ghost use Rattle.grid_law.specs.MonthReserves.{HoldMonthGrid};

use fixed_interval::Table;
use month_grid::month_grid_is_near;
use rate_bounds::Admitted;
use std::alloc::{AllocError, Global};
use std::sync::ledger::Ledger;
use taylor_step::Steps;
use thiele_backward::reserves;

/// The table of `thiele_backward::reserves`: the reserves of all states at the dates 0, `every`, 2 `every` and so on,
/// up to the term, each without the lump of its date. Its ends also hold the reserves that whole months give as cells,
/// in each degree of at least 4096. It takes the steps and the memory of that call.
pub fn month_reserves<L: Ledger>(
    alloc: Global,
    adm: &Admitted,
    every: u32,
    steps: &mut Steps<L>,
) -> Result<Table, AllocError>
    requires every { 0 < every }
    requires count { steps.old + cells_of_month * adm.now.months < 2 ^ 63 }
    ensures reserves { IfOk result (AreReserves adm.now every) }
    ensures months { IfOk result (HoldMonthGrid adm.now every) }
    ensures constant { AreConstantMonths adm.now (payment_plan adm.now)
        → IfOk result (λ table. table.degree ≡ least_degree) }
    ensures count { IfOk result (λ table. steps.new ≡ steps.old + cost adm.now (payment_plan adm.now)) }
    ensures refused { OnErr result (RisesAtMost steps.old (cost adm.now (payment_plan adm.now)) steps.new) }
    ensures count_at_most { steps.new ≤ steps.old + cells_of_month * adm.now.months }
{
    // The law of the month grid, which is of admitted products.
    month_grid_is_near();
    let _product = adm.product();
    let table = reserves(alloc, adm, every, steps)?;
    Ok(table)
}

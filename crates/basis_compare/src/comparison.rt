//! The comparison of two bases.

ghost use Rattle.std.specs.Prelude.{◌≡◌, ◌+◌, ◌*◌, ◌^◌, ◌<◌, ◌≤◌, IfOk, OnOk, None};
ghost use Rattle.named_numbers.specs.Numbers.{cells_of_month};
ghost use Rattle.basis_compare.specs.Bases.{hybrid_of, first_difference};
ghost use Rattle.basis_compare.specs.Changes.{AreChanges};
ghost use Rattle.basis_compare.specs.ChangesText.{HaveText};
ghost use Rattle.basis_compare.specs.Costs.{reserves_cost};

use crate::change_rows::Changes;
use crate::differences::rows_of;
use crate::printed_tables::printed_reserves;
use rate_bounds::Admitted;
use std::alloc::{AllocError, Global};
use std::sync::ledger::Ledger;
use taylor_step::Steps;
use thiele_backward::reserves;

/// The change of each reserve from basis A to basis B at the dates 0, `every`, 2 `every` and so on, up to the term: the
/// step of the interest from A to the hybrid H, the rest from H to B, and the total. It takes the steps of the three
/// tables of reserves, and memory for all rows.
pub fn compare<L: Ledger>(
    alloc: Global,
    a: &Admitted,
    h: &Admitted,
    b: &Admitted,
    every: u32,
    steps: &mut Steps<L>,
) -> Result<Changes, AllocError>
    requires every { 0 < every }
    requires comparable { first_difference a.now b.now ≡ None }
    requires hybrid { h.now ≡ hybrid_of a.now b.now }
    requires count { steps.old + 3 * (cells_of_month * a.now.months) < 2 ^ 63 }

    // Each interval holds the exact change from the answered degree on, and each turn says its order.
    ensures changes { IfOk result (AreChanges a.now b.now every) }
    ensures text { IfOk result (HaveText a.now) }
    ensures count { OnOk result (steps.new
        ≡ steps.old + reserves_cost a.now + reserves_cost h.now + reserves_cost b.now) }
    ensures count_at_most { steps.new
        ≤ steps.old + reserves_cost a.now + reserves_cost h.now + reserves_cost b.now }
{
    // An admitted product has a state.
    let _product = a.product();
    let old = reserves(alloc, a, every, steps)?;
    let between = reserves(alloc, h, every, steps)?;
    let new = reserves(alloc, b, every, steps)?;
    let from = printed_reserves(alloc, a, &old)?;
    let by = printed_reserves(alloc, h, &between)?;
    let to = printed_reserves(alloc, b, &new)?;
    let rows = rows_of(alloc, &from, &by, &to)?;
    Ok(Changes {
        degree: old.degree.max(between.degree).max(new.degree),
        rows,
    })
}

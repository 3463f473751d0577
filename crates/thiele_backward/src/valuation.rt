//! The value at issue.

ghost use Rattle.std.specs.Prelude.{◌≡◌, ◌+◌, ◌*◌, ◌^◌, ◌<◌, ◌≤◌, IfOk, OnErr};
ghost use Rattle.named_numbers.specs.Numbers.{cells_of_month, least_degree};
ghost use Rattle.model_specs.specs.Stretches.{cost};
ghost use Rattle.limit_laws.specs.Modulus.{ReservesConverge};
ghost use Rattle.limit_laws.specs.Defect.{NearlySolvesThiele};
ghost use Rattle.rate_bounds.specs.MonthPay.{plan_named};
ghost use Rattle.thiele_backward.specs.Results.{IsValueAtIssue, AreConstantMonths};
ghost use Rattle.thiele_backward.specs.StretchMaps.{RisesAtMost};

use crate::costs::cost_splits;
use crate::equations::runs_obey_thiele;
use crate::sweep::Sweep;
use fixed_interval::Valued;
use named_numbers::LEAST_DEGREE;
use payment_plan::Which;
use rate_bounds::Admitted;
use std::alloc::{AllocError, Global};
use std::sync::ledger::Ledger;
use taylor_step::Steps;

/// The value of a plan just before issue, in the start state and with the lump of date 0. It takes as many steps as
/// there are states and one for each stretch of months in which nothing varies, 32 for each other month, and memory for
/// a month and the maps of the stretches before the first of these.
pub fn value<L: Ledger>(
    alloc: Global,
    adm: &Admitted,
    which: Which,
    steps: &mut Steps<L>,
) -> Result<Valued, AllocError>
    requires { steps.old + cells_of_month * adm.now.months < 2 ^ 63 }
    ensures value { IfOk result (IsValueAtIssue adm.now (plan_named which adm.now)) }
    ensures constant { AreConstantMonths adm.now (plan_named which adm.now)
        → IfOk result (λ valued. valued.degree ≡ least_degree) }

    // The values of two degrees from 8 on differ by at most G W / 2^13, divided by 8^n, and the run of degree n solves
    // Thiele's equation in each cell but for a defect of at most 8^-n.
    ensures modulus { ReservesConverge adm.now (plan_named which adm.now) }
    ensures defect { NearlySolvesThiele adm.now (plan_named which adm.now) }
    ensures count { IfOk result (λ valued. steps.new ≡ steps.old + cost adm.now (plan_named which adm.now)) }
    ensures refused { OnErr result (RisesAtMost steps.old (cost adm.now (plan_named which adm.now)) steps.new) }
    ensures count_at_most { steps.new ≤ steps.old + cells_of_month * adm.now.months }
{
    runs_obey_thiele(adm, which);
    cost_splits(adm, which);
    let mut sweep = Sweep::prepare(alloc, adm, which, steps)?;
    let mut degree = LEAST_DEGREE;
    for _month in 0..adm.product().months() {
        let row = sweep.month_back(adm, steps);
        degree = degree.max(row.degree);
    }
    Ok(Valued {
        degree,
        interval: sweep.enclosure_before(adm, adm.product().start()),
    })
}

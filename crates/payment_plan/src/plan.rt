//! Payment plans.

ghost use Rattle.std.specs.Prelude.{◌≡◌, ◌+◌, ◌-◌, ◌<◌, ◌≤◌, ℕ, pos, IfOk, [], length, slice_index_or};
ghost use Rattle.model_specs.specs.Payments.{sojourn_at, sum_at, lumps_at, constant_step};
ghost use Rattle.model_specs.specs.Cells.{Grid, amount_cell};
ghost use Rattle.model_specs.specs.Growth.{load};
ghost use Rattle.model_specs.specs.RecordRules.{IsBoundedStep};
ghost use Rattle.payment_plan.specs.Records.{record_of, steps_of, sojourns_of, lumps_of, pattern_rule_of, payments_of};
ghost use Rattle.payment_plan.specs.Payments.{IsAllowed, plan_of};
ghost use Rattle.payment_plan.specs.Steps.{steps_in_state};

use crate::dates::{lumps_by_date, payer_lumps};
use crate::lump::Lump;
use crate::pattern::{PatternRule, Which};
use crate::step::{StepAmount, step_at};
use std::alloc::{AllocError, Global};
use std::marker::Model;

/// The payments of a product over a term of months: they obey rules 10 to 14.
#[derive(Drop)]
pub struct Plan {
    states: usize,
    months: u32,
    sums: Vec<Vec<StepAmount>>,
    sojourns: Vec<(usize, Vec<StepAmount>)>,
    lumps: Vec<Lump>,
    pattern: PatternRule,
    dated: Vec<Vec<(usize, i64)>>,
    payers: Vec<(usize, i64)>,
}

impl Model for Plan {
    ghost use Rattle.payment_plan.specs.Payments.{Payments};
    ghost use Rattle.payment_plan.specs.Records.{payments_of};
    ghost use Rattle.payment_plan.specs.Tables.{KeepsTables, lists_of};

    ghost Value = { Payments };

    ghost view = { λ p. payments_of p.states p.months p.sums.items p.sojourns.items p.lumps.items p.pattern };

    ghost invariant = { λ p. KeepsTables
        (payments_of p.states p.months p.sums.items p.sojourns.items p.lumps.items p.pattern)
        (lists_of p.dated.items) p.payers.items };
}

// The steps of the rate of a state, and none where it has no sojourn.
fn steps_of_state(sojourns: &[(usize, Vec<StepAmount>)], state: usize) -> &[StepAmount]
    ensures { steps_of result.now ≡ steps_in_state (sojourns_of sojourns.now) state }
{
    for (at, steps) in sojourns {
        if *at == state {
            return steps;
        }
    }
    &[]
}

impl Plan {
    /// The plan of these payments, where `sums` has a list for each transition, empty where nothing is paid. Takes
    /// memory for the lumps of each date.
    pub fn new(
        alloc: Global,
        states: usize,
        months: u32,
        sums: Vec<Vec<StepAmount>>,
        sojourns: Vec<(usize, Vec<StepAmount>)>,
        lumps: Vec<Lump>,
        pattern: PatternRule,
    ) -> Result<Plan, AllocError>
        requires { IsAllowed (payments_of states months sums.items sojourns.items lumps.items pattern) }
        ensures { IfOk result (λ plan. plan ≡ payments_of states months sums.items sojourns.items lumps.items pattern) }
    {
        let dated = lumps_by_date(alloc, states, months, &lumps)?;
        let payers = payer_lumps(alloc, states, &pattern.payers)?;
        Ok(Plan {
            states,
            months,
            sums,
            sojourns,
            lumps,
            pattern,
            dated,
            payers,
        })
    }

    /// The sum of a transition: its steps in the file's order, and none where nothing is paid.
    pub fn sums(&self, transition: usize) -> &[StepAmount]
        requires { transition < length self.now.sums }
        ensures steps { steps_of result.now ≡ slice_index_or self.now.sums transition [] }
        ensures allowed { IsAllowed self.now }
    {
        &self.sums[transition]
    }

    /// The states with a sojourn rate and its steps, in the file's order.
    pub fn sojourns(&self) -> &[(usize, Vec<StepAmount>)]
        ensures sojourns { sojourns_of result.now ≡ self.now.sojourns }
        ensures allowed { IsAllowed self.now }
    {
        &self.sojourns
    }

    /// The lumps in the file's order.
    pub fn lumps(&self) -> &[Lump]
        ensures lumps { lumps_of result.now ≡ self.now.lumps }
        ensures allowed { IsAllowed self.now }
    {
        &self.lumps
    }

    /// The premium pattern.
    pub fn pattern(&self) -> &PatternRule
        ensures pattern { pattern_rule_of result.now ≡ self.now.pattern }
        ensures allowed { IsAllowed self.now }
    {
        &self.pattern
    }

    /// The step of a state's sojourn rate that covers a month: of the benefits, and else that of the pattern, which
    /// starts at 0 and is constant. Takes no memory.
    pub fn sojourn_at(&self, which: Which, state: usize, month: u32) -> StepAmount
        requires state { state < self.now.states }
        requires month { month < self.now.months }
        ensures benefits { which ≡ Which.Benefits → record_of result ≡ sojourn_at (plan_of which self.now) state month }
        ensures pattern { which ≡ Which.Pattern → result.from ≡ 0 }
        ensures coefficients { result.c ≡ (sojourn_at (plan_of which self.now) state month).c }
        ensures load { load (record_of result) month ≡ load (sojourn_at (plan_of which self.now) state month) month }
        ensures amount { (grid : Grid) (cell : ℕ) → amount_cell grid (record_of result) month cell
            ≡ amount_cell grid (sojourn_at (plan_of which self.now) state month) month cell }
        ensures started { result.from ≤ month }
        ensures bounded { IsBoundedStep result.c (month - result.from + 1) }
    {
        match which {
            Which::Benefits => step_at(steps_of_state(self.sojourns(), state), month),
            Which::Pattern => StepAmount::constant(i64::from(self.pattern().pays_in(state, month))),
        }
    }

    /// The step of a transition's sum that covers a month: of the benefits, and else that of the pattern, which pays
    /// no sums. Takes no memory.
    pub fn sum_at(&self, which: Which, transition: usize, month: u32) -> StepAmount
        requires transition { transition < length self.now.sums }
        requires month { month < self.now.months }
        ensures step { record_of result ≡ sum_at (plan_of which self.now) transition month }
        ensures pattern { which ≡ Which.Pattern → record_of result ≡ constant_step 0 (pos 0) }
        ensures started { result.from ≤ month }
        ensures bounded { IsBoundedStep result.c (month - result.from + 1) }
    {
        match which {
            Which::Benefits => step_at(self.sums(transition), month),
            Which::Pattern => StepAmount::constant(0),
        }
    }

    /// The lumps of a date, each with its state, in order of states. Takes no memory.
    pub fn lumps_at(&self, which: Which, month: u32) -> &[(usize, i64)]
        requires { month ≤ self.now.months }
        ensures { result.now ≡ lumps_at self.now.states (plan_of which self.now) month }
    {
        match which {
            Which::Benefits => &self.dated[month as usize],
            Which::Pattern if self.pattern.pays_at(month) => &self.payers,
            Which::Pattern => &[],
        }
    }
}

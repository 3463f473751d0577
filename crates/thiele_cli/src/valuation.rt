// Valuations of a product, as answers.
ghost use Rattle.std.specs.Prelude.{◌≡◌, ◌<◌, ℤ, IfOk};
ghost use Rattle.thiele_cli.specs.declared.question.Question.TheVariants as question;
ghost use Rattle.reserve_report.specs.Reports.{HasText};
ghost use Rattle.thiele_cli.specs.MonthGrids.{IsReserveReport};
ghost use Rattle.thiele_cli.specs.Replies.{AnswersQuestion, IsPrintable};

use crate::answer::Answer;
use crate::refusal::Refusal;
use grid_law::month_reserves;
use kolmogorov_forward::occupancy;
use moment_equations::moments;
use payment_plan::Which;
use premium_solver::{PremiumError, solve};
use rate_bounds::Admitted;
use reserve_report::{Kind, Report, from_moments, from_premium, from_table, from_value};
use std::alloc::{AllocError, Global};
use std::sync::ledger::Ledger;
use taylor_step::Steps;
use thiele_backward::value;

/// The value at issue in the start state.
pub fn value_answer<L: Ledger>(
    alloc: Global,
    admitted: Admitted,
    steps: &mut Steps<L>,
) -> Result<Answer, AllocError>
    requires { steps.old ≡ 0 }
    ensures answer { IfOk result (AnswersQuestion question.ValueAtIssue admitted) }
    ensures printable { IfOk result IsPrintable }
{
    let _months = admitted.product().months();
    let valued = value(alloc, &admitted, Which::Benefits, steps)?;
    let report = from_value(alloc, &admitted, &valued)?;
    Ok(Answer::Report(admitted, report))
}

/// The report of the reserves of all states at the dates 0, `every`, 2 `every` and so on, up to the term.
pub fn reserves_report<L: Ledger>(
    alloc: Global,
    admitted: &Admitted,
    every: u32,
    steps: &mut Steps<L>,
) -> Result<Report, AllocError>
    requires every { 0 < every }
    requires count { steps.old ≡ 0 }
    ensures report { IfOk result (IsReserveReport admitted.now every) }
    ensures text { IfOk result (HasText admitted.now) }
{
    let _months = admitted.product().months();
    let table = month_reserves(alloc, admitted, every, steps)?;
    let report = from_table(alloc, admitted, Kind::Reserves, &table)?;
    Ok(report)
}

/// The reserves at these dates.
pub fn reserves_answer<L: Ledger>(
    alloc: Global,
    admitted: Admitted,
    every: u32,
    steps: &mut Steps<L>,
) -> Result<Answer, AllocError>
    requires every { 0 < every }
    requires count { steps.old ≡ 0 }
    ensures answer { IfOk result (AnswersQuestion (question.Reserves every) admitted) }
    ensures printable { IfOk result IsPrintable }
{
    let report = reserves_report(alloc, &admitted, every, steps)?;
    Ok(Answer::Report(admitted, report))
}

/// The probabilities of all states at these dates, from the start state at issue.
pub fn occupancy_answer<L: Ledger>(
    alloc: Global,
    admitted: Admitted,
    every: u32,
    steps: &mut Steps<L>,
) -> Result<Answer, AllocError>
    requires every { 0 < every }
    requires count { steps.old ≡ 0 }
    ensures answer { IfOk result (AnswersQuestion (question.Occupancy every) admitted) }
    ensures printable { IfOk result IsPrintable }
{
    let _months = admitted.product().months();
    let table = occupancy(alloc, &admitted, every, steps)?;
    let report = from_table(alloc, &admitted, Kind::Occupancy, &table)?;
    Ok(Answer::Report(admitted, report))
}

/// The first moments, second moments and variances of what is paid after these dates, in all states.
pub fn moments_answer<L: Ledger>(
    alloc: Global,
    admitted: Admitted,
    every: u32,
    steps: &mut Steps<L>,
) -> Result<Answer, AllocError>
    requires every { 0 < every }
    requires count { steps.old ≡ 0 }
    ensures answer { IfOk result (AnswersQuestion (question.Moments every) admitted) }
    ensures printable { IfOk result IsPrintable }
{
    let _months = admitted.product().months();
    let table = moments(alloc, &admitted, every, steps)?;
    let report = from_moments(alloc, &admitted, &table)?;
    Ok(Answer::Report(admitted, report))
}

// Why there is no premium, unless for want of memory.
fn refusal_of(error: PremiumError) -> Result<Refusal, AllocError>
    ensures { IfOk result (λ why. (low : ℤ) × (error ≡ PremiumError.TooSmall low) × (why ≡ Refusal.Premium low)) }
{
    match error {
        PremiumError::TooSmall { low } => Ok(Refusal::Premium { low }),
        PremiumError::Memory => Err(AllocError),
    }
}

/// The equivalence premium, or that the pattern's value is too small for one.
pub fn premium_answer<L: Ledger>(
    alloc: Global,
    admitted: Admitted,
    steps: &mut Steps<L>,
) -> Result<Answer, AllocError>
    requires { steps.old ≡ 0 }
    ensures answer { IfOk result (AnswersQuestion question.Premium admitted) }
    ensures printable { IfOk result IsPrintable }
{
    let _months = admitted.product().months();
    match solve(alloc, &admitted, steps) {
        Ok(table) => {
            let report = from_premium(alloc, &admitted, &table)?;
            Ok(Answer::Report(admitted, report))
        }
        Err(error) => Ok(Answer::Refused(refusal_of(error)?)),
    }
}

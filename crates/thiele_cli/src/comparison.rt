// The comparison of two bases, as an answer.
ghost use Rattle.std.specs.Prelude.{◌≡◌, ◌<◌, IfOk};
ghost use Rattle.thiele_cli.specs.Comparisons.{AnswersComparison};
ghost use Rattle.thiele_cli.specs.BasesBetween.{IsBetween, TellsBetween};
ghost use Rattle.thiele_cli.specs.Replies.{IsPrintable};

use crate::answer::Answer;
use crate::refusal::Refusal;
use basis_compare::{CompareError, compare, hybrid};
use rate_bounds::{AdmitError, Admitted, admit};
use std::alloc::{AllocError, Global};
use std::sync::ledger::Ledger;
use taylor_step::Steps;

/// The basis between two others, with the interest of the second one, or why there is none.
#[derive(Drop)]
pub enum Between {
    Admitted(Admitted),
    Refused(Refusal),
}

// The basis between two others.
fn find_between(alloc: Global, old: &Admitted, new: &Admitted) -> Result<Between, AllocError>
    ensures { IfOk result (TellsBetween old.now new.now) }
{
    let product = match hybrid(alloc, old, new) {
        Ok(product) => product,
        Err(CompareError::Compare(broken)) => {
            return Ok(Between::Refused(Refusal::Compare(broken)));
        }
        Err(CompareError::Memory) => return Err(AllocError),
    };
    match admit(alloc, product) {
        Ok(between) => Ok(Between::Admitted(between)),
        Err(AdmitError::Rule(found)) => Ok(Between::Refused(Refusal::Derived(found))),
        Err(AdmitError::Memory) => Err(AllocError),
    }
}

// The changes from one basis to another by way of the one between them.
fn changes_over<L: Ledger>(
    alloc: Global,
    old: Admitted,
    between: &Admitted,
    new: Admitted,
    every: u32,
    steps: &mut Steps<L>,
) -> Result<Answer, AllocError>
    requires every { 0 < every }
    requires between { IsBetween old new between.now }
    requires count { steps.old ≡ 0 }
    ensures answer { IfOk result (AnswersComparison old new every) }
    ensures printable { IfOk result IsPrintable }
{
    let _months = old.product().months();
    let changes = compare(alloc, &old, between, &new, every, steps)?;
    Ok(Answer::Changes(old, new, changes))
}

/// The changes of the reserves of all states at the dates 0, `every`, 2 `every` and so on, up to the term; or why there
/// are none.
pub fn changes_answer<L: Ledger>(
    alloc: Global,
    old: Admitted,
    new: Admitted,
    every: u32,
    steps: &mut Steps<L>,
) -> Result<Answer, AllocError>
    requires every { 0 < every }
    requires count { steps.old ≡ 0 }
    ensures answer { IfOk result (AnswersComparison old new every) }
    ensures printable { IfOk result IsPrintable }
{
    match find_between(alloc, &old, &new)? {
        Between::Admitted(basis) => changes_over(alloc, old, &basis, new, every, steps),
        Between::Refused(why) => Ok(Answer::Refused(why)),
    }
}

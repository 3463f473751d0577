// What is asked of a product, and its answer.
ghost use Rattle.std.specs.Prelude.{◌≡◌, ◌<◌, IfOk};
ghost use Rattle.thiele_cli.specs.Questions.{HasDates};
ghost use Rattle.thiele_cli.specs.Replies.{AnswersQuestion, IsPrintable};

use crate::answer::Answer;
use crate::upgrading::upgraded_answer;
use crate::valuation::{
    moments_answer, occupancy_answer, premium_answer, reserves_answer, value_answer,
};
use rate_bounds::Admitted;
use std::alloc::{AllocError, Global};
use std::marker::Brand;
use std::sync::ledger::{Blank, Ledger};
use taylor_step::Steps;

/// What is asked of a product.
#[derive(Clone, Copy, Debug, PartialEq, Eq)]
pub enum Question {
    /// How exact each answer about it will be, by `check`.
    Limits,
    /// Its value at issue in the start state, by `value`.
    ValueAtIssue,
    /// Its reserves in all states, each so many months up to the term, by `reserves`.
    Reserves(u32),
    /// The probabilities of its states at these dates, by `occupancy`.
    Occupancy(u32),
    /// First moments, second moments and variances at these dates, by `moments`.
    Moments(u32),
    /// Its equivalence premium, by `premium`.
    Premium,
    /// The product as a file of format 2, by `upgrade`.
    Upgraded,
}

// The answer, by sweeps that count their steps.
fn counted_answer<L: Ledger>(
    alloc: Global,
    question: Question,
    admitted: Admitted,
    blank: Blank,
) -> Result<Answer, AllocError>
    requires name { blank.name ≡ L.name }
    requires parts { blank.parts ≡ L.parts }
    requires some_parts { 0 < blank.parts }
    requires dates { HasDates question }
    ensures answer { IfOk result (AnswersQuestion question admitted) }
    ensures printable { IfOk result IsPrintable }
{
    let mut steps = Steps::<L>::open(blank);
    match question {
        Question::Limits => Ok(Answer::Limits(admitted)),
        Question::ValueAtIssue => value_answer(alloc, admitted, &mut steps),
        Question::Reserves(every) => reserves_answer(alloc, admitted, every, &mut steps),
        Question::Occupancy(every) => occupancy_answer(alloc, admitted, every, &mut steps),
        Question::Moments(every) => moments_answer(alloc, admitted, every, &mut steps),
        Question::Premium => premium_answer(alloc, admitted, &mut steps),
        Question::Upgraded => upgraded_answer(alloc, admitted),
    }
}

/// The answer to a question about a product.
pub fn product_answer(
    alloc: Global,
    question: Question,
    admitted: Admitted,
) -> Result<Answer, AllocError>
    requires { HasDates question }
    ensures answer { IfOk result (AnswersQuestion question admitted) }
    ensures printable { IfOk result IsPrintable }
{
    counted_answer::<Brand>(alloc, question, admitted, Blank::new(1))
}

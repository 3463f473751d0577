// What is asked of two products, and its answer.
ghost use Rattle.std.specs.Prelude.{◌≡◌, ◌<◌, IfOk};
ghost use Rattle.thiele_cli.specs.Questions.{HasDatesOfTwo};
ghost use Rattle.thiele_cli.specs.Replies.{AnswersOfTwo, IsPrintable};

use crate::answer::Answer;
use crate::comparison::changes_answer;
use crate::joining::joined_answer;
use rate_bounds::Admitted;
use std::alloc::{AllocError, Global};
use std::marker::Brand;
use std::sync::ledger::{Blank, Ledger};
use taylor_step::Steps;

/// What is asked of two products.
#[derive(Clone, Copy, Debug, PartialEq, Eq)]
pub enum PairQuestion {
    /// Both lives as one product, a file of format 2, by `join`.
    Joined,
    /// The changes of the reserves from the first one's basis to the second one's, each so many months up to the term,
    /// by `compare`.
    Changes(u32),
}

// The answer, by sweeps that count their steps.
fn counted_answer<L: Ledger>(
    alloc: Global,
    question: PairQuestion,
    old: Admitted,
    new: Admitted,
    blank: Blank,
) -> Result<Answer, AllocError>
    requires name { blank.name ≡ L.name }
    requires parts { blank.parts ≡ L.parts }
    requires some_parts { 0 < blank.parts }
    requires dates { HasDatesOfTwo question }
    ensures answer { IfOk result (AnswersOfTwo question old new) }
    ensures printable { IfOk result IsPrintable }
{
    let mut steps = Steps::<L>::open(blank);
    match question {
        PairQuestion::Joined => joined_answer(alloc, old, new),
        PairQuestion::Changes(every) => changes_answer(alloc, old, new, every, &mut steps),
    }
}

/// The answer to a question about two products.
pub fn pair_answer(
    alloc: Global,
    question: PairQuestion,
    old: Admitted,
    new: Admitted,
) -> Result<Answer, AllocError>
    requires { HasDatesOfTwo question }
    ensures answer { IfOk result (AnswersOfTwo question old new) }
    ensures printable { IfOk result IsPrintable }
{
    counted_answer::<Brand>(alloc, question, old, new, Blank::new(1))
}

// A product as a file of format 2, as an answer.
ghost use Rattle.std.specs.Prelude.{IfOk};
ghost use Rattle.thiele_cli.specs.declared.question.Question.TheVariants as question;
ghost use Rattle.thiele_cli.specs.Replies.{AnswersQuestion, IsPrintable};

use crate::answer::Answer;
use file_upgrade::upgrade;
use rate_bounds::Admitted;
use std::alloc::{AllocError, Global};

/// The product as a file of format 2.
pub fn upgraded_answer(alloc: Global, admitted: Admitted) -> Result<Answer, AllocError>
    ensures answer { IfOk result (AnswersQuestion question.Upgraded admitted) }
    ensures printable { IfOk result IsPrintable }
{
    Ok(Answer::File(upgrade(alloc, &admitted)?))
}

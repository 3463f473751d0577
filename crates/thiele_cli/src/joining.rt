// Two lives as one product, as an answer.
ghost use Rattle.std.specs.Prelude.{IfOk};
ghost use Rattle.thiele_cli.specs.JointFiles.{AnswersJoin};
ghost use Rattle.thiele_cli.specs.Replies.{IsPrintable};

use crate::answer::Answer;
use crate::refusal::Refusal;
use file_upgrade::upgrade;
use joint_life::{JoinError, join};
use rate_bounds::{AdmitError, Admitted, admit};
use std::alloc::{AllocError, Global};

/// The chain of the pairs of the states of two lives as a file of format 2; or why there is none.
pub fn joined_answer(alloc: Global, old: Admitted, new: Admitted) -> Result<Answer, AllocError>
    ensures answer { IfOk result (AnswersJoin old new) }
    ensures printable { IfOk result IsPrintable }
{
    let product = match join(alloc, &old, &new) {
        Ok(product) => product,
        Err(JoinError::Join(broken)) => return Ok(Answer::Refused(Refusal::Join(broken))),
        Err(JoinError::Memory) => return Err(AllocError),
    };
    let joint = match admit(alloc, product) {
        Ok(joint) => joint,
        Err(AdmitError::Rule(found)) => return Ok(Answer::Refused(Refusal::Derived(found))),
        Err(AdmitError::Memory) => return Err(AllocError),
    };
    let text = upgrade(alloc, &joint)?;
    Ok(Answer::File(text))
}

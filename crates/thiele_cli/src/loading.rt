// The reserves of a generated product, as an answer.
ghost use Rattle.std.specs.Prelude.{◌≡◌, ◌<◌, IfOk};
ghost use Rattle.workload_gen.specs.Laws.{generated_product};
ghost use Rattle.thiele_cli.specs.Loads.{IsLoaded, SumsUp};
ghost use Rattle.thiele_cli.specs.Replies.{IsPrintable};

use crate::answer::Answer;
use crate::valuation::reserves_report;
use crate::verdict::{Verdict, verdict_on};
use rate_bounds::Admitted;
use std::alloc::{AllocError, Global};
use std::marker::Brand;
use std::sync::ledger::{Blank, Ledger};
use taylor_step::Steps;
use workload_gen::make;

// The months between the dates of its reserves.
const EVERY: u32 = 12;

// The product of a seed: its file breaks no rule.
fn generated(alloc: Global, seed: u64) -> Result<Admitted, AllocError>
    ensures { IfOk result (λ admitted. admitted ≡ generated_product seed) }
{
    let text = make(alloc, seed)?;
    match verdict_on(alloc, text)? {
        Verdict::Admitted(admitted) => Ok(admitted),
        Verdict::Refused(_) => unreachable!(),
    }
}

// The answer, by a sweep that counts its steps.
fn counted_answer<L: Ledger>(
    alloc: Global,
    admitted: Admitted,
    blank: Blank,
) -> Result<Answer, AllocError>
    requires name { blank.name ≡ L.name }
    requires parts { blank.parts ≡ L.parts }
    requires some_parts { 0 < blank.parts }
    ensures answer { IfOk result (SumsUp admitted) }
    ensures printable { IfOk result IsPrintable }
{
    let mut steps = Steps::<L>::open(blank);
    let report = reserves_report(alloc, &admitted, EVERY, &mut steps)?;
    Ok(Answer::Load(admitted, report))
}

/// The reserves at each year of the product that is generated from a seed.
pub fn loaded_answer(alloc: Global, seed: u64) -> Result<Answer, AllocError>
    ensures answer { IfOk result (IsLoaded seed) }
    ensures printable { IfOk result IsPrintable }
{
    let admitted = generated(alloc, seed)?;
    counted_answer::<Brand>(alloc, admitted, Blank::new(1))
}

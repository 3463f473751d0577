// What a command is answered by, before the sink is reached.
ghost use Rattle.std.specs.Prelude.{◌≡◌, ℕ, ◌++◌, List, [], ◌∷◌, IfOk, OnOk, IsErrOf};
ghost use Rattle.command_words.specs.Commands.{request_of};
ghost use Rattle.thiele_cli.specs.Cases.{IsAskedOf};
ghost use Rattle.thiele_cli.specs.Inquiries.{asked_by, IsWellAsked};
ghost use Rattle.thiele_cli.specs.Questions.{OfFile, OfFiles, asked_of, HasDates, HasDatesOfTwo, IsRead};
ghost use Rattle.thiele_cli.specs.Replies.{IsGenerated, IsPrintable};
ghost use Rattle.thiele_cli.specs.AskedAnswers.{AnswersAsked};

use crate::answer::Answer;
use crate::auditing::claims_answer;
use crate::changing::change_answer;
use crate::fault::Fault;
use crate::fetching::file_verdict;
use crate::inquiry::{Inquiry, inquiry_of};
use crate::loading::loaded_answer;
use crate::merging::shards_answer;
use crate::pair_question::{PairQuestion, pair_answer};
use crate::portfolio::portfolio_answer;
use crate::question::{Question, product_answer};
use crate::refusal::Refusal;
use crate::verdict::Verdict;
use command_words::Command;
use io_ports::Shelf;
use std::alloc::{AllocError, Global};
use workload_gen::make;

/// The answer to a question about a file.
fn named_answer<H: Shelf>(
    alloc: Global,
    question: Question,
    name: &str,
    shelf: &mut H,
) -> Result<Answer, Fault>
    requires { HasDates question }
    ensures answer { IfOk result (AnswersAsked (H.files shelf.old) (OfFile question name.now)) }
    ensures printable { IfOk result IsPrintable }
    ensures fetched { OnOk result (H.failed shelf.new ≡ H.failed shelf.old) }
    ensures not_fetched { IsErrOf result Fault.Fetch → (file : List ℕ)
        × IsAskedOf (H.files shelf.old) (OfFile question name.now) file
        × (H.failed shelf.new ≡ H.failed shelf.old ++ file ∷ []) }
    ensures memory { IsErrOf result Fault.Memory → H.failed shelf.new ≡ H.failed shelf.old }
    ensures files { H.files shelf.new ≡ H.files shelf.old }
{
    match file_verdict(alloc, name, shelf)? {
        Verdict::Admitted(product) => Ok(product_answer(alloc, question, product)?),
        Verdict::Refused(refused) => Ok(Answer::first_refused(refused)),
    }
}

/// The answer to a question about two files. The second is fetched only where the first has a product.
fn two_named_answer<H: Shelf>(
    alloc: Global,
    question: PairQuestion,
    first: &str,
    second: &str,
    shelf: &mut H,
) -> Result<Answer, Fault>
    requires { HasDatesOfTwo question }
    ensures answer { IfOk result (AnswersAsked (H.files shelf.old) (OfFiles question first.now second.now)) }
    ensures printable { IfOk result IsPrintable }
    ensures fetched { OnOk result (H.failed shelf.new ≡ H.failed shelf.old) }
    ensures not_fetched { IsErrOf result Fault.Fetch → (file : List ℕ)
        × IsAskedOf (H.files shelf.old) (OfFiles question first.now second.now) file
        × (H.failed shelf.new ≡ H.failed shelf.old ++ file ∷ []) }
    ensures memory { IsErrOf result Fault.Memory → H.failed shelf.new ≡ H.failed shelf.old }
    ensures files { H.files shelf.new ≡ H.files shelf.old }
{
    let old = match file_verdict(alloc, first, shelf)? {
        Verdict::Admitted(product) => product,
        Verdict::Refused(refused) => return Ok(Answer::first_refused(refused)),
    };
    match file_verdict(alloc, second, shelf)? {
        Verdict::Admitted(new) => Ok(pair_answer(alloc, question, old, new)?),
        Verdict::Refused(refused) => Ok(Answer::second_refused(refused)),
    }
}

/// The product file of a seed.
fn seed_answer(alloc: Global, seed: u64) -> Result<Answer, AllocError>
    ensures answer { IfOk result (IsGenerated seed) }
    ensures printable { IfOk result IsPrintable }
{
    Ok(Answer::File(make(alloc, seed)?))
}

/// The answer to what is asked. A seed needs no file.
fn inquiry_answer<H: Shelf>(
    alloc: Global,
    inquiry: Inquiry<'_>,
    shelf: &mut H,
) -> Result<Answer, Fault>
    requires { IsWellAsked (asked_by inquiry) }
    ensures answer { IfOk result (AnswersAsked (H.files shelf.old) (asked_by inquiry.entry)) }
    ensures printable { IfOk result IsPrintable }
    ensures fetched { OnOk result (H.failed shelf.new ≡ H.failed shelf.old) }
    ensures not_fetched { IsErrOf result Fault.Fetch → (file : List ℕ)
        × IsAskedOf (H.files shelf.old) (asked_by inquiry.entry) file
        × (H.failed shelf.new ≡ H.failed shelf.old ++ file ∷ []) }
    ensures memory { IsErrOf result Fault.Memory → H.failed shelf.new ≡ H.failed shelf.old }
    ensures files { H.files shelf.new ≡ H.files shelf.old }
{
    match inquiry {
        Inquiry::OfFile(question, name) => named_answer(alloc, question, name, shelf),
        Inquiry::OfFiles(question, first, second) => {
            two_named_answer(alloc, question, first, second, shelf)
        }
        Inquiry::OfSeed(seed) => Ok(seed_answer(alloc, seed)?),
        Inquiry::LoadOf(seed) => Ok(loaded_answer(alloc, seed)?),
        Inquiry::OfClaims(name, claims, eps) => claims_answer(alloc, eps, name, claims, shelf),
        Inquiry::OfPortfolio(csv) => portfolio_answer(alloc, csv, shelf),
        Inquiry::OfChange(name, change) => change_answer(alloc, change, name, shelf),
        Inquiry::OfShards(csv) => shards_answer(alloc, csv, shelf),
        Inquiry::OfPage(page) => Ok(Answer::Told(page)),
    }
}

/// The answer to a command.
pub fn command_answer<H: Shelf>(
    alloc: Global,
    command: Command<'_>,
    shelf: &mut H,
) -> Result<Answer, Fault>
    requires { IsRead (request_of command) }
    ensures answer { IfOk result (AnswersAsked (H.files shelf.old) (asked_of (request_of command.entry))) }
    ensures printable { IfOk result IsPrintable }
    ensures fetched { OnOk result (H.failed shelf.new ≡ H.failed shelf.old) }
    ensures not_fetched { IsErrOf result Fault.Fetch →
        (file : List ℕ) × IsAskedOf (H.files shelf.old) (asked_of (request_of command.entry)) file
        × (H.failed shelf.new ≡ H.failed shelf.old ++ file ∷ []) }
    ensures memory { IsErrOf result Fault.Memory → H.failed shelf.new ≡ H.failed shelf.old }
    ensures files { H.files shelf.new ≡ H.files shelf.old }
{
    inquiry_answer(alloc, inquiry_of(command), shelf)
}

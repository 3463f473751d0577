// The totals of a portfolio, as an answer. Its product files are fetched, read and valued one after the other.
ghost use Rattle.std.specs.Prelude.{◌≡◌, ◌<◌, ◌≤◌, ℕ, ◌++◌, List, [], ◌∷◌, All, Contains, length, IsUtf8};
ghost use Rattle.std.specs.Prelude.{IfOk, OnOk, IsErrOf};
ghost use Rattle.portfolio_run.specs.Readings.{files_of};
ghost use Rattle.portfolio_run.specs.Stored.{most_bytes, AddsValued};
ghost use Rattle.thiele_cli.specs.AskedAnswers.{AnswersAsked};
ghost use Rattle.thiele_cli.specs.Cases.{IsAskedOf};
ghost use Rattle.thiele_cli.specs.PortfolioFiles.{AnswersText, IsLast, IsNext};
ghost use Rattle.thiele_cli.specs.Portfolios.{NamesFile};
ghost use Rattle.thiele_cli.specs.Questions.{OfPortfolio};
ghost use Rattle.thiele_cli.specs.declared.refusal.Refusal.TheVariants as refusal;
ghost use Rattle.thiele_cli.specs.RefusedTexts.{IsRefusedText};
ghost use Rattle.thiele_cli.specs.Replies.{IsPrintable};

use crate::answer::Answer;
use crate::fault::Fault;
use crate::fetching::{Fetched, fetch_file, file_verdict};
use crate::file_break::FileRefusal;
use crate::policy_break::{PolicyBreak, PolicyRefusal};
use crate::refusal::Refusal;
use crate::verdict::Verdict;
use io_ports::Shelf;
use portfolio_run::{Policies, PolicyError, read_policies};
use rate_bounds::Admitted;
use refusal_words::CsvTable;
use std::alloc::{AllocError, Global};
use std::marker::Brand;
use std::str;
use std::sync::ledger::{Blank, Ledger};
use taylor_step::Steps;

// Values the next file by its product, by a sweep that counts its steps.
fn counted_value<L: Ledger>(
    policies: &mut Policies,
    product: &Admitted,
    blank: Blank,
) -> Result<(), AllocError>
    requires name { blank.name ≡ L.name }
    requires parts { blank.parts ≡ L.parts }
    requires some_parts { 0 < blank.parts }
    requires left { length policies.old.valued < length (files_of policies.old.holdings) }
    ensures { OnOk result (AddsValued product.now policies.old policies.new) }
{
    let _months = product.product().months();
    let mut steps = Steps::<L>::open(blank);
    policies.value_next(product, &mut steps)
}

// Values the next file by its product.
fn value_file(policies: &mut Policies, product: &Admitted) -> Result<(), AllocError>
    requires { length policies.old.valued < length (files_of policies.old.holdings) }
    ensures { OnOk result (AddsValued product.now policies.old policies.new) }
{
    counted_value::<Brand>(policies, product, Blank::new(1))
}

// Fetches the next file, and values it by its product; or tells why it is refused.
fn next_file<H: Shelf>(
    alloc: Global,
    policies: &mut Policies,
    shelf: &mut H,
) -> Result<Option<FileRefusal>, Fault>
    requires left { length policies.old.valued < length (files_of policies.old.holdings) }
    requires texts { All IsUtf8 (files_of policies.old.holdings) }
    ensures next { IfOk result (IsNext (H.files shelf.old) policies.old policies.new) }
    ensures fetched { OnOk result (H.failed shelf.new ≡ H.failed shelf.old) }
    ensures not_fetched { IsErrOf result Fault.Fetch → (name : List ℕ)
        × Contains (files_of policies.old.holdings) name × (H.failed shelf.new ≡ H.failed shelf.old ++ name ∷ []) }
    ensures memory { IsErrOf result Fault.Memory → H.failed shelf.new ≡ H.failed shelf.old }
    ensures files { H.files shelf.new ≡ H.files shelf.old }
{
    let place = policies.valued();
    let Ok(name) = str::from_utf8(&policies.files()[place]) else {
        unreachable!()
    };
    match file_verdict(alloc, name, shelf)? {
        Verdict::Admitted(product) => {
            value_file(policies, &product)?;
            Ok(None)
        }
        Verdict::Refused(refused) => Ok(Some(refused)),
    }
}

// Values all files in the order in which they are first seen, each once; or tells the first that is refused.
fn value_files<H: Shelf>(
    alloc: Global,
    policies: &mut Policies,
    shelf: &mut H,
) -> Result<Option<PolicyRefusal>, Fault>
    requires none { policies.old.valued ≡ [] }
    requires few { length (files_of policies.old.holdings) ≤ most_bytes }
    requires texts { All IsUtf8 (files_of policies.old.holdings) }
    ensures last { IfOk result (IsLast (H.files shelf.old) policies.old policies.new) }
    ensures fetched { OnOk result (H.failed shelf.new ≡ H.failed shelf.old) }
    ensures not_fetched { IsErrOf result Fault.Fetch → (name : List ℕ)
        × Contains (files_of policies.old.holdings) name × (H.failed shelf.new ≡ H.failed shelf.old ++ name ∷ []) }
    ensures memory { IsErrOf result Fault.Memory → H.failed shelf.new ≡ H.failed shelf.old }
    ensures files { H.files shelf.new ≡ H.files shelf.old }
{
    for file in 0..policies.files().len() {
        if let Some(refused) = next_file(alloc, policies, shelf)? {
            let file = file as u32;
            return Ok(Some(PolicyRefusal { file, refused }));
        }
    }
    Ok(None)
}

// A product file of the portfolio is refused.
fn policy_refused(refused: PolicyRefusal) -> Answer
    ensures refused { IsRefusedText (refusal.Policy (record { file = refused.file; cause = refused.refused.cause }))
        refused.refused.text.items result }
    ensures printable { IsPrintable result }
{
    let PolicyRefusal { file, refused } = refused;
    let cause = refused.cause;
    Answer::RefusedText(Refusal::Policy(PolicyBreak { file, cause }), refused.text)
}

// The answer to the text of a portfolio.
fn text_answer<H: Shelf>(alloc: Global, text: Vec<u8>, shelf: &mut H) -> Result<Answer, Fault>
    requires { length text.items ≤ most_bytes }
    ensures answer { IfOk result (AnswersText (H.files shelf.old) text.items) }
    ensures printable { IfOk result IsPrintable }
    ensures fetched { OnOk result (H.failed shelf.new ≡ H.failed shelf.old) }
    ensures not_fetched { IsErrOf result Fault.Fetch → (name : List ℕ)
        × NamesFile text.items name × (H.failed shelf.new ≡ H.failed shelf.old ++ name ∷ []) }
    ensures memory { IsErrOf result Fault.Memory → H.failed shelf.new ≡ H.failed shelf.old }
    ensures files { H.files shelf.new ≡ H.files shelf.old }
{
    let mut policies = match read_policies(alloc, &text) {
        Ok(policies) => policies,
        Err(PolicyError::Row(broken)) => {
            return Ok(Answer::row_refused(CsvTable::Holdings, broken, text));
        }
        Err(PolicyError::Memory) => return Err(Fault::Memory),
    };
    if let Some(refused) = value_files(alloc, &mut policies, shelf)? {
        return Ok(policy_refused(refused));
    }
    match policies.totals() {
        Ok(totals) => Ok(Answer::Portfolio(totals)),
        Err(PolicyError::Row(broken)) => Ok(Answer::row_refused(CsvTable::Holdings, broken, text)),
        Err(PolicyError::Memory) => Err(Fault::Memory),
    }
}

/// The totals of the portfolio in the file of that name; or why there are none. Each of its product files is fetched
/// once, and only where no row is wrong by itself.
pub fn portfolio_answer<H: Shelf>(alloc: Global, name: &str, shelf: &mut H) -> Result<Answer, Fault>
    ensures answer { IfOk result (AnswersAsked (H.files shelf.old) (OfPortfolio name.now)) }
    ensures printable { IfOk result IsPrintable }
    ensures fetched { OnOk result (H.failed shelf.new ≡ H.failed shelf.old) }
    ensures not_fetched { IsErrOf result Fault.Fetch → (file : List ℕ)
        × IsAskedOf (H.files shelf.old) (OfPortfolio name.now) file
        × (H.failed shelf.new ≡ H.failed shelf.old ++ file ∷ []) }
    ensures memory { IsErrOf result Fault.Memory → H.failed shelf.new ≡ H.failed shelf.old }
    ensures files { H.files shelf.new ≡ H.files shelf.old }
{
    match fetch_file(alloc, name, shelf)? {
        Fetched::Bytes(text) => text_answer(alloc, text, shelf),
        Fetched::TooLong { seen } => {
            Ok(Answer::first_refused(FileRefusal::too_long(alloc, seen)))
        }
    }
}

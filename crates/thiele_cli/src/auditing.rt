// The audit of claims about a product, as an answer.
ghost use Rattle.std.specs.Prelude.{◌≡◌, ◌<◌, ℕ, ◌++◌, List, [], ◌∷◌, IfOk, OnOk, IsErrOf};
ghost use Rattle.thiele_cli.specs.AskedAnswers.{AnswersAsked};
ghost use Rattle.thiele_cli.specs.Audits.{AnswersAudit, IsDistance};
ghost use Rattle.thiele_cli.specs.Cases.{IsAskedOf};
ghost use Rattle.thiele_cli.specs.Questions.{OfClaims};
ghost use Rattle.thiele_cli.specs.Replies.{IsPrintable};

use crate::answer::Answer;
use crate::fault::Fault;
use crate::fetching::{Fetched, fetch_file, file_verdict};
use crate::file_break::FileRefusal;
use crate::verdict::Verdict;
use claim_audit::{AuditError, audit};
use io_ports::Shelf;
use rate_bounds::Admitted;
use refusal_words::CsvTable;
use std::alloc::{AllocError, Global};
use std::marker::Brand;
use std::sync::ledger::{Blank, Ledger};
use taylor_step::Steps;

// The audit, by a sweep that counts its steps.
fn counted_audit<L: Ledger>(
    alloc: Global,
    eps: i128,
    admitted: Admitted,
    text: Vec<u8>,
    blank: Blank,
) -> Result<Answer, AllocError>
    requires name { blank.name ≡ L.name }
    requires parts { blank.parts ≡ L.parts }
    requires some_parts { 0 < blank.parts }
    requires distance { IsDistance eps }
    ensures answer { IfOk result (AnswersAudit eps admitted text.items) }
    ensures printable { IfOk result IsPrintable }
{
    let _months = admitted.product().months();
    let mut steps = Steps::<L>::open(blank);
    match audit(alloc, &admitted, &text, eps, &mut steps) {
        Ok(audited) => Ok(Answer::Audit(admitted, eps, audited)),
        Err(AuditError::Row(broken)) => Ok(Answer::row_refused(CsvTable::Claims, broken, text)),
        Err(AuditError::Memory) => Err(AllocError),
    }
}

/// What is found of the claims of a text about a product, to a distance in millionths, or its first wrong row.
pub fn audit_answer(
    alloc: Global,
    eps: i128,
    admitted: Admitted,
    text: Vec<u8>,
) -> Result<Answer, AllocError>
    requires { IsDistance eps }
    ensures answer { IfOk result (AnswersAudit eps admitted text.items) }
    ensures printable { IfOk result IsPrintable }
{
    counted_audit::<Brand>(alloc, eps, admitted, text, Blank::new(1))
}

/// The answer to a question about claims. Their file is fetched only where the first one has a product.
pub fn claims_answer<H: Shelf>(
    alloc: Global,
    eps: i128,
    name: &str,
    claims: &str,
    shelf: &mut H,
) -> Result<Answer, Fault>
    requires { IsDistance eps }
    ensures answer { IfOk result (AnswersAsked (H.files shelf.old) (OfClaims name.now claims.now eps)) }
    ensures printable { IfOk result IsPrintable }
    ensures fetched { OnOk result (H.failed shelf.new ≡ H.failed shelf.old) }
    ensures not_fetched { IsErrOf result Fault.Fetch → (file : List ℕ)
        × IsAskedOf (H.files shelf.old) (OfClaims name.now claims.now eps) file
        × (H.failed shelf.new ≡ H.failed shelf.old ++ file ∷ []) }
    ensures memory { IsErrOf result Fault.Memory → H.failed shelf.new ≡ H.failed shelf.old }
    ensures files { H.files shelf.new ≡ H.files shelf.old }
{
    let product = match file_verdict(alloc, name, shelf)? {
        Verdict::Admitted(product) => product,
        Verdict::Refused(refused) => return Ok(Answer::first_refused(refused)),
    };
    match fetch_file(alloc, claims, shelf)? {
        Fetched::Bytes(text) => Ok(audit_answer(alloc, eps, product, text)?),
        Fetched::TooLong { seen } => {
            Ok(Answer::second_refused(FileRefusal::too_long(alloc, seen)))
        }
    }
}

// A changed product as a file of format 2, as an answer.
ghost use Rattle.std.specs.Prelude.{◌≡◌, ℕ, ◌++◌, List, [], ◌∷◌, Err, IfOk, OnOk, IsErrOf};
ghost use Rattle.curve_pieces.specs.BrokenRules.{IsFirstBroken};
ghost use Rattle.file_changes.specs.declared.breaks.ChangeBreak.{ChangeBreak};
ghost use Rattle.file_changes.specs.declared.breaks.ChangeError.TheVariants as error;
ghost use Rattle.thiele_cli.specs.AskedAnswers.{AnswersAsked};
ghost use Rattle.thiele_cli.specs.Cases.{IsAskedOf};
ghost use Rattle.thiele_cli.specs.ChangedFiles.{AnswersChange, ChangeAsks, changed_by};
ghost use Rattle.thiele_cli.specs.Inquiries.{change_of};
ghost use Rattle.thiele_cli.specs.Questions.{OfChange};
ghost use Rattle.thiele_cli.specs.Replies.{IsPrintable};

use crate::answer::Answer;
use crate::fault::Fault;
use crate::fetching::file_verdict;
use crate::refusal::Refusal;
use crate::verdict::Verdict;
use decimal_in::Decimal;
use file_changes::{ChangeError, charge, multiply, shift};
use file_upgrade::upgrade;
use io_ports::Shelf;
use product_model::Product;
use rate_bounds::{AdmitError, Admitted, admit};
use std::alloc::{AllocError, Global};

/// A change that is asked of a product.
#[derive(Clone, Copy, Debug, PartialEq, Eq)]
pub enum Change<'a> {
    /// So much a year is added to its force of interest, by `shift`.
    Shifted(Decimal),
    /// The intensity from the one state to the other is taken so many times, by `multiply`.
    Multiplied(&'a str, &'a str, Decimal),
    /// The premium pattern, so many times, is taken off its payments, by `charge`.
    Charged(i64),
}

// The product, changed; or the first part of the change that is broken.
fn changed(alloc: Global, change: Change<'_>, product: &Product) -> Result<Product, ChangeError>
    ensures ok { IfOk result (λ given. given ≡ changed_by (change_of change.entry) product.now) }
    ensures keeps { IfOk result (λ _. (part : ℕ) → ChangeAsks (change_of change.entry) product.now part) }
    ensures refused { (broken : ChangeBreak) → result ≡ Err (error.Change broken) →
        IsFirstBroken (ChangeAsks (change_of change.entry) product.now) broken.part }
{
    match change {
        Change::Shifted(rate) => shift(alloc, product, rate.units, rate.places),
        Change::Multiplied(from, to, factor) => multiply(
            alloc,
            product,
            from,
            to,
            factor.units,
            factor.places,
        ),
        Change::Charged(amount) => charge(alloc, product, amount),
    }
}

/// The changed product as a file of format 2; or why there is none.
pub fn changed_answer(
    alloc: Global,
    change: Change<'_>,
    admitted: Admitted,
) -> Result<Answer, AllocError>
    ensures answer { IfOk result (AnswersChange (change_of change.entry) admitted) }
    ensures printable { IfOk result IsPrintable }
{
    let product = match changed(alloc, change, admitted.product()) {
        Ok(product) => product,
        Err(ChangeError::Change(broken)) => return Ok(Answer::Refused(Refusal::Change(broken))),
        Err(ChangeError::Memory) => return Err(AllocError),
    };
    let new = match admit(alloc, product) {
        Ok(new) => new,
        Err(AdmitError::Rule(found)) => return Ok(Answer::Refused(Refusal::Derived(found))),
        Err(AdmitError::Memory) => return Err(AllocError),
    };
    let text = upgrade(alloc, &new)?;
    Ok(Answer::File(text))
}

/// The answer to a request to change the product of a file.
pub fn change_answer<H: Shelf>(
    alloc: Global,
    change: Change<'_>,
    name: &str,
    shelf: &mut H,
) -> Result<Answer, Fault>
    ensures answer { IfOk result (AnswersAsked (H.files shelf.old) (OfChange name.now (change_of change.entry))) }
    ensures printable { IfOk result IsPrintable }
    ensures fetched { OnOk result (H.failed shelf.new ≡ H.failed shelf.old) }
    ensures not_fetched { IsErrOf result Fault.Fetch → (file : List ℕ)
        × IsAskedOf (H.files shelf.old) (OfChange name.now (change_of change.entry)) file
        × (H.failed shelf.new ≡ H.failed shelf.old ++ file ∷ []) }
    ensures memory { IsErrOf result Fault.Memory → H.failed shelf.new ≡ H.failed shelf.old }
    ensures files { H.files shelf.new ≡ H.files shelf.old }
{
    match file_verdict(alloc, name, shelf)? {
        Verdict::Admitted(product) => Ok(changed_answer(alloc, change, product)?),
        Verdict::Refused(refused) => Ok(Answer::first_refused(refused)),
    }
}

// The sums of totals, as an answer.
ghost use Rattle.std.specs.Prelude.{◌≡◌, ◌≤◌, ℕ, ◌++◌, List, [], ◌∷◌, length, IfOk, OnOk, IsErrOf};
ghost use Rattle.portfolio_run.specs.Stored.{most_bytes};
ghost use Rattle.thiele_cli.specs.AskedAnswers.{AnswersAsked};
ghost use Rattle.thiele_cli.specs.Cases.{IsAskedOf};
ghost use Rattle.thiele_cli.specs.Merges.{AnswersMerge};
ghost use Rattle.thiele_cli.specs.Questions.{OfShards};
ghost use Rattle.thiele_cli.specs.Replies.{IsPrintable};

use crate::answer::Answer;
use crate::fault::Fault;
use crate::fetching::{Fetched, fetch_file};
use crate::file_break::FileRefusal;
use io_ports::Shelf;
use refusal_words::CsvTable;
use std::alloc::{AllocError, Global};
use total_merge::{MergeError, merge};

/// The sums by group of the totals in a text, or its first wrong row.
pub fn merged_answer(alloc: Global, text: Vec<u8>) -> Result<Answer, AllocError>
    requires { length text.items ≤ most_bytes }
    ensures answer { IfOk result (AnswersMerge text.items) }
    ensures printable { IfOk result IsPrintable }
{
    match merge(alloc, &text) {
        Ok(totals) => Ok(Answer::Portfolio(totals)),
        Err(MergeError::Row(broken)) => Ok(Answer::row_refused(CsvTable::Totals, broken, text)),
        Err(MergeError::Memory) => Err(AllocError),
    }
}

/// The answer to a request to merge the totals in the file of that name.
pub fn shards_answer<H: Shelf>(alloc: Global, csv: &str, shelf: &mut H) -> Result<Answer, Fault>
    ensures answer { IfOk result (AnswersAsked (H.files shelf.old) (OfShards csv.now)) }
    ensures printable { IfOk result IsPrintable }
    ensures fetched { OnOk result (H.failed shelf.new ≡ H.failed shelf.old) }
    ensures not_fetched { IsErrOf result Fault.Fetch → (file : List ℕ)
        × IsAskedOf (H.files shelf.old) (OfShards csv.now) file
        × (H.failed shelf.new ≡ H.failed shelf.old ++ file ∷ []) }
    ensures memory { IsErrOf result Fault.Memory → H.failed shelf.new ≡ H.failed shelf.old }
    ensures files { H.files shelf.new ≡ H.files shelf.old }
{
    match fetch_file(alloc, csv, shelf)? {
        Fetched::Bytes(text) => Ok(merged_answer(alloc, text)?),
        Fetched::TooLong { seen } => {
            Ok(Answer::first_refused(FileRefusal::too_long(alloc, seen)))
        }
    }
}

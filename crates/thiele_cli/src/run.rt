// The whole program but its real shelf and sink.
ghost use Rattle.std.specs.Prelude.{◌≡◌, ◌≢◌, ◌⊎◌, IsSome};
ghost use Rattle.io_ports.specs.Counts.{Rose};
ghost use Rattle.command_words.specs.Forms.{HaveReading};
ghost use Rattle.command_words.specs.Readings.{words_of};
ghost use Rattle.report_columns.specs.Columns.{columns_of};
ghost use Rattle.thiele_cli.specs.Cases.{AskAbout};
ghost use Rattle.thiele_cli.specs.Questions.{AskForNoFile};
ghost use Rattle.thiele_cli.specs.Replies.{end_of, report_of, extra_of};
ghost use Rattle.thiele_cli.specs.Ends.{ComesBy, IsExtra, IsFault, LeadTo};
ghost use Rattle.thiele_cli.specs.Ends.{LeadToExtra, LeadToReport, NotesFailure, status_of};
ghost use Rattle.thiele_cli.specs.Outcome.{Delivers, EndsAs, Writes};

use crate::answer::Answer;
use crate::command_answer::command_answer;
use crate::end::{End, Extra, Finish};
use crate::fault::Fault;
use crate::form::no_reading_text;
use crate::pieces::write_pieces;
use crate::refusal::Refusal;
use command_words::read_words;
use io_ports::{Shelf, Sink};
use report_columns::Column;
use std::alloc::Global;

/// Hands over the text of an answer, and ends as the answer does or with a write fault.
fn deliver<K: Sink>(sink: &mut K, answer: Answer, text: &[u8]) -> Finish
    ensures status { result.status ≡ status_of result.end }
    ensures report { result.report ≡ report_of answer }
    ensures extra { result.extra ≡ extra_of answer }
    ensures ends { EndsAs answer result.end }
    ensures delivers { Delivers text.now (end_of answer) result.end (K.written sink.old) (K.written sink.new) }
    ensures write_fault { result.end ≡ End.WriteFault → Rose (K.faults sink.old) (K.faults sink.new) }
    ensures no_write_fault { result.end ≢ End.WriteFault → K.faults sink.new ≡ K.faults sink.old }
{
    let end = match write_pieces(sink, text) {
        Ok(()) => answer.end(),
        Err(_) => End::WriteFault,
    };
    let (report, extra) = answer.into_results();
    Finish::of(end, report, extra)
}

/// The top call: reads the words, fetches and reads the files that they name, if any, and writes what they ask for, or
/// the line that refuses it. All memory is taken before the first byte is written, and the columns are dropped with the
/// call.
pub fn run<H: Shelf, K: Sink>(
    alloc: Global,
    words: &[String],
    shelf: &mut H,
    sink: &mut K,
    mut columns: Vec<Box<dyn Column>>,
) -> Finish
    ensures status { result.status ≡ status_of result.end }

    // What was written, in the form that is asked for, with the columns behind a report, and that the report is right,
    // or what else was asked for: the headline.
    ensures written { Writes (H.files shelf.old) (words_of words.now) (H.given shelf.new)
        (columns_of kind text columns.items) result.end result.report result.extra (K.written sink.old)
        (K.written sink.new) }

    // When each end comes, and that it comes wherever its case is known: `Done` and each refusal.
    ensures causes { (own : End) → ¬ IsFault own →
        ComesBy (H.files shelf.old) (words_of words.now) (H.failed shelf.old) (H.failed shelf.new) result.end own }

    // Words without a reading, seeds and pages need no file, told or not; the first take no memory either.
    ensures no_reading { ¬ HaveReading (words_of words.now) →
        (result.end ≡ End.BadWords) ⊎ (result.end ≡ End.WriteFault) }
    ensures no_file { AskForNoFile (words_of words.now) →
        (result.end ≡ End.Done) ⊎ (result.end ≡ End.Memory) ⊎ (result.end ≡ End.WriteFault) }

    // A fetch fault comes exactly where the list of failed names grew, and it grew by a file that the words name, or
    // the holdings of the portfolio that they name.
    ensures failed { NotesFailure (AskAbout (H.files shelf.old) (words_of words.now)) result.end
        (H.failed shelf.old) (H.failed shelf.new) }

    // A fault of the sink comes only where its count rose, and no other end leaves it changed.
    ensures write_fault { result.end ≡ End.WriteFault → Rose (K.faults sink.old) (K.faults sink.new) }
    ensures no_write_fault { result.end ≢ End.WriteFault → K.faults sink.new ≡ K.faults sink.old }

    // Where the files are told, a report that could not be written whole is handed back, or what else was to be
    // written, and with no fault each case has its end, but for want of memory.
    ensures reported { LeadToReport (H.files shelf.old) (words_of words.now) → IsSome (H.files shelf.old) →
        result.end ≡ End.WriteFault → IsSome result.report }
    ensures extra { LeadToExtra (H.files shelf.old) (words_of words.now) → IsSome (H.files shelf.old) →
        result.end ≡ End.WriteFault → IsExtra result.extra }
    ensures complete { (own : End) → LeadTo (H.files shelf.old) (words_of words.now) own →
        IsSome (H.files shelf.old) → H.failed shelf.new ≡ H.failed shelf.old →
        ¬ Rose (K.faults sink.old) (K.faults sink.new) → (result.end ≡ own) ⊎ (result.end ≡ End.Memory) }

    ensures files { H.files shelf.new ≡ H.files shelf.old }
{
    let Some(reading) = read_words(words) else {
        return deliver(
            sink,
            Answer::Refused(Refusal::Words),
            no_reading_text(words),
        );
    };
    let answer = match command_answer(alloc, reading.command, shelf) {
        Ok(answer) => answer,
        Err(Fault::Fetch) => return Finish::of(End::FetchFault, None, Extra::Nothing),
        Err(Fault::Memory) => return Finish::of(End::Memory, None, Extra::Nothing),
    };
    match answer.text_in(alloc, reading.form, words, shelf.given(), &mut columns) {
        Ok(text) => deliver(sink, answer, &text),
        Err(_) => Finish::of(End::Memory, None, Extra::Nothing),
    }
}

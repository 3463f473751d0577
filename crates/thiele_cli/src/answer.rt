// What a run answers, before it is text.
ghost use Rattle.std.specs.Prelude.{◌≡◌, IfOk};
ghost use Rattle.report_columns.specs.Columns.{columns_of};
ghost use Rattle.thiele_cli.specs.declared.refusal.Refusal.TheVariants as refusal;
ghost use Rattle.thiele_cli.specs.RefusedTexts.{IsRefusedText};
ghost use Rattle.thiele_cli.specs.Replies.{end_of, report_of, extra_of, text_of, IsPrintable};

use crate::end::{End, Extra};
use crate::file_break::FileRefusal;
use crate::page::Page;
use crate::refusal::Refusal;
use basis_compare::{Changes, changes_bytes};
use claim_audit::{Audited, audit_bytes};
use portfolio_run::{Totals, totals_bytes};
use rate_bounds::Admitted;
use refusal_words::CsvTable;
use report_columns::Column;
use reserve_report::{Report, check_bytes, load_bytes, report_bytes};
use rule_breaks::RowBreak;
use std::alloc::{AllocError, Global};

/// What a run answers.
#[derive(Drop)]
pub enum Answer {
    /// The limits of a product.
    Limits(Admitted),
    /// A report about a product.
    Report(Admitted, Report),
    /// A report of reserves, summed up.
    Load(Admitted, Report),
    /// A product file.
    File(Vec<u8>),
    /// No answer, but a line that says why.
    Refused(Refusal),
    /// No answer by the text of a file, which is kept, and a line that says why.
    RefusedText(Refusal, Vec<u8>),
    /// The changes from the basis of one product to that of another.
    Changes(Admitted, Admitted, Changes),
    /// What is found of claims about a product, to a distance in millionths of a minor unit.
    Audit(Admitted, i128, Audited),
    /// The totals of a portfolio by group.
    Portfolio(Totals),
    /// What the program tells of itself.
    Told(Page),
}

impl Answer {
    /// The file is refused, or the first one where the words name two.
    pub fn first_refused(refused: FileRefusal) -> Answer
        ensures refused { IsRefusedText (refusal.First refused.cause) refused.text.items result }
        ensures printable { IsPrintable result }
    {
        Answer::RefusedText(Refusal::First(refused.cause), refused.text)
    }

    /// The second file is refused.
    pub fn second_refused(refused: FileRefusal) -> Answer
        ensures refused { IsRefusedText (refusal.Second refused.cause) refused.text.items result }
        ensures printable { IsPrintable result }
    {
        Answer::RefusedText(Refusal::Second(refused.cause), refused.text)
    }

    /// A row of such a table is wrong, and the text of the table is kept.
    pub fn row_refused(table: CsvTable, broken: RowBreak, text: Vec<u8>) -> Answer
        ensures refused { IsRefusedText (refusal.Row table broken) text.items result }
        ensures printable { IsPrintable result }
    {
        Answer::RefusedText(Refusal::Row(table, broken), text)
    }

    /// The end of the run, once the text is written.
    pub fn end(&self) -> End
        ensures { result ≡ end_of self.now }
    {
        match self {
            Answer::Limits(_) => End::Done,
            Answer::Report(..) => End::Done,
            Answer::Load(..) => End::Done,
            Answer::File(_) => End::Done,
            Answer::Refused(why) => why.end(),
            Answer::RefusedText(why, _) => why.end(),
            Answer::Changes(..) => End::Done,
            Answer::Audit(..) => End::Done,
            Answer::Portfolio(_) => End::Done,
            Answer::Told(_) => End::Done,
        }
    }

    /// The text that is to be written. Columns are told of the rows of a report, or of the groups of a portfolio, and
    /// their texts stand behind it.
    pub fn text(
        &self,
        alloc: Global,
        columns: &mut Vec<Box<dyn Column>>,
    ) -> Result<Vec<u8>, AllocError>
        requires { IsPrintable self.now }
        ensures { IfOk result (λ bytes. bytes.items ≡ text_of self.now (columns_of kind text columns.old.items)) }
    {
        match self {
            Answer::Limits(admitted) => check_bytes(alloc, admitted),
            Answer::Report(admitted, report) => {
                report_bytes(alloc, admitted.product(), report, columns)
            }
            Answer::Load(admitted, report) => load_bytes(alloc, admitted.product(), report),
            Answer::File(text) => text.clone(),
            Answer::Refused(why) => why.line(alloc),
            Answer::RefusedText(why, _) => why.line(alloc),
            Answer::Changes(old, new, changes) => {
                changes_bytes(alloc, old.product(), new.product(), changes)
            }
            Answer::Audit(admitted, eps, audited) => {
                audit_bytes(alloc, admitted.product(), *eps, audited)
            }
            Answer::Portfolio(totals) => totals_bytes(alloc, totals, columns),
            Answer::Told(page) => page.text(alloc),
        }
    }

    /// The report, where the answer is one, and what else it has.
    pub fn into_results(self) -> (Option<Report>, Extra)
        ensures report { result.0 ≡ report_of self }
        ensures extra { result.1 ≡ extra_of self }
    {
        match self {
            Answer::Limits(_) => (None, Extra::Nothing),
            Answer::Report(_, report) => (Some(report), Extra::Nothing),
            Answer::Load(_, report) => (Some(report), Extra::Nothing),
            Answer::File(_) => (None, Extra::Nothing),
            Answer::Refused(_) => (None, Extra::Nothing),
            Answer::RefusedText(..) => (None, Extra::Nothing),
            Answer::Changes(_, _, changes) => (None, Extra::Compare(changes)),
            Answer::Audit(_, _, audited) => (None, Extra::Audit(audited)),
            Answer::Portfolio(totals) => (None, Extra::Portfolio(totals)),
            Answer::Told(_) => (None, Extra::Nothing),
        }
    }
}

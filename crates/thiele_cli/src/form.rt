// What is written of an answer, in each form.
ghost use Rattle.std.specs.Prelude.{◌≡◌, IfOk};
ghost use Rattle.command_words.specs.Readings.{words_of};
ghost use Rattle.io_ports.specs.Given.{evidence_of};
ghost use Rattle.report_columns.specs.Columns.{columns_of};
ghost use Rattle.thiele_cli.specs.Forms.{explained_words, degree_of, none_text, scale_of, sheet_of, rest_of};
ghost use Rattle.thiele_cli.specs.Forms.{IsExplained, IsJsonText, IsTextIn, text_or};
ghost use Rattle.row_sheets.specs.CsvText.{csv_text};
ghost use Rattle.thiele_cli.specs.Replies.{IsPrintable, text_of};

use crate::answer::Answer;
use crate::explaining::{lines, text_lines};
use answer_sheets::{audit_sheet, changes_sheet, report_sheet, totals_sheet};
use command_words::Form;
use io_ports::Given;
use report_columns::Column;
use row_sheets::{About, Sheet, csv_bytes, json_bytes};
use std::alloc::{AllocError, Global};

// The words behind the first one.
fn rest(words: &[String]) -> &[String]
    ensures { words_of result.now ≡ rest_of (words_of words.entry.now) }
{
    match words {
        [] => words,
        [_, rest @ ..] => rest,
    }
}

// The line that refuses words, and the lines that explain it.
#[tactic(auto, unfolding(crate::specs::Forms::explained_words))]
fn explained_words() -> &'static [u8]
    ensures { result.now ≡ explained_words }
{
    b"refused words\n\
    rule: the words are a command of help, with its files and numbers; csv and json stand before commands with rows, \
    explain before all but help and version\nwanted: EVERY is 1 to 1200, RATE is like 0.01 or -0.01, FACTOR and EPS \
    are like 0.01\n"
}

/// What is written of words without a reading. Takes no memory.
pub fn no_reading_text(words: &[String]) -> &'static [u8]
    ensures { result.now ≡ none_text (words_of words.now) }
{
    match words {
        [first, ..] if first.as_str() == "explain" => explained_words(),
        _ => b"refused words\n",
    }
}

impl Answer {
    // The rows of an answer that has rows.
    fn sheet(&self, alloc: Global) -> Result<Option<Sheet>, AllocError>
        requires { IsPrintable self.now }
        ensures { IfOk result (λ sheet. sheet ≡ sheet_of self.now) }
    {
        match self {
            Answer::Report(admitted, report) => {
                Ok(Some(report_sheet(alloc, admitted.product(), report)?))
            }
            Answer::Changes(old, _, changes) => {
                Ok(Some(changes_sheet(alloc, old.product(), changes)?))
            }
            Answer::Audit(admitted, _, audited) => {
                Ok(Some(audit_sheet(alloc, admitted.product(), audited)?))
            }
            Answer::Portfolio(totals) => Ok(Some(totals_sheet(alloc, totals)?)),
            _ => Ok(None),
        }
    }

    // The degree that it tells.
    fn degree(&self) -> Option<u8>
        ensures { result ≡ degree_of self.now }
    {
        match self {
            Answer::Report(_, report) => Some(report.degree),
            Answer::Load(_, report) => Some(report.degree),
            Answer::Changes(_, _, changes) => Some(changes.degree),
            Answer::Audit(_, _, audited) => Some(audited.degree),
            Answer::Portfolio(totals) => Some(totals.degree),
            _ => None,
        }
    }

    // The scale that it tells.
    fn scale(&self) -> Option<u8>
        ensures { result ≡ scale_of self.now }
    {
        match self {
            Answer::Report(_, report) => Some(report.scale),
            Answer::Load(_, report) => Some(report.scale),
            _ => None,
        }
    }

    // Its rows as CSV, or its own text where it has none.
    fn csv(&self, alloc: Global, columns: &mut Vec<Box<dyn Column>>) -> Result<Vec<u8>, AllocError>
        requires { IsPrintable self.now }
        ensures { IfOk result (λ bytes. bytes.items ≡ text_or csv_text
            (text_of self.now (columns_of kind text columns.old.items)) (sheet_of self.now)) }
    {
        match self.sheet(alloc)? {
            Some(sheet) => csv_bytes(alloc, &sheet),
            None => self.text(alloc, columns),
        }
    }

    // Its rows as JSON, with the command and the files, or its own text where it has none.
    fn json(
        &self,
        alloc: Global,
        words: &[String],
        files: &[Given],
        columns: &mut Vec<Box<dyn Column>>,
    ) -> Result<Vec<u8>, AllocError>
        requires { IsPrintable self.now }
        ensures { IfOk result (λ bytes. IsJsonText (words_of words.now) (evidence_of files.now) self.now
            (columns_of kind text columns.old.items) bytes.items) }
    {
        let about = About {
            words: rest(words),
            files,
            degree: self.degree(),
            scale: self.scale(),
        };
        match self.sheet(alloc)? {
            Some(sheet) => json_bytes(alloc, &about, &sheet),
            None => self.text(alloc, columns),
        }
    }

    // Its text; of a refusal its line, and lines that explain it.
    fn explained(
        &self,
        alloc: Global,
        columns: &mut Vec<Box<dyn Column>>,
    ) -> Result<Vec<u8>, AllocError>
        requires { IsPrintable self.now }
        ensures { IfOk result (λ bytes. IsExplained self.now (columns_of kind text columns.old.items) bytes.items) }
    {
        let mut text = self.text(alloc, columns)?;
        match self {
            Answer::Refused(why) => text.extend_from_slice(&lines(alloc, *why)?)?,
            Answer::RefusedText(why, kept) => {
                text.extend_from_slice(&text_lines(alloc, *why, kept)?)?
            }
            _ => (),
        }
        Ok(text)
    }

    /// The text that is written of it in a form. The files are those that were given so far.
    pub fn text_in(
        &self,
        alloc: Global,
        form: Form,
        words: &[String],
        files: &[Given],
        columns: &mut Vec<Box<dyn Column>>,
    ) -> Result<Vec<u8>, AllocError>
        requires { IsPrintable self.now }
        ensures { IfOk result (λ bytes. IsTextIn form (words_of words.now) (evidence_of files.now) self.now
            (columns_of kind text columns.old.items) bytes.items) }
    {
        match form {
            Form::Report => self.text(alloc, columns),
            Form::Csv => self.csv(alloc, columns),
            Form::Json => self.json(alloc, words, files, columns),
            Form::Explained => self.explained(alloc, columns),
        }
    }
}

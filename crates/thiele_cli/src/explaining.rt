// The lines that explain why there is no answer.
ghost use Rattle.std.specs.Prelude.{◌≡◌, IfOk};
ghost use Rattle.thiele_cli.specs.Explanations.{ExplainFile, ExplainRow, ExplainText, lines_of};

use crate::file_break::FileBreak;
use crate::refusal::Refusal;
use claim_audit::all_rows;
use refusal_words::{
    CsvTable, change_lines, compare_lines, derived_lines, join_lines, length_lines, premium_lines,
    row_lines, rule_lines, toml_lines, words_lines,
};
use rule_breaks::RowBreak;
use std::alloc::{AllocError, Global};

/// The lines that explain a refusal that is not by the text of a file.
pub fn lines(alloc: Global, why: Refusal) -> Result<Vec<u8>, AllocError>
    ensures { IfOk result (λ text. text.items ≡ lines_of why) }
{
    match why {
        Refusal::Words => words_lines(alloc),
        Refusal::First(_) => Ok(Vec::new(alloc)),
        Refusal::Second(_) => Ok(Vec::new(alloc)),
        Refusal::Premium { .. } => premium_lines(alloc),
        Refusal::Join(broken) => join_lines(alloc, broken.part),
        Refusal::Derived(found) => derived_lines(alloc, found),
        Refusal::Compare(broken) => compare_lines(alloc, broken.part),
        Refusal::Row(..) => Ok(Vec::new(alloc)),
        Refusal::Policy(_) => Ok(Vec::new(alloc)),
        Refusal::Change(broken) => change_lines(alloc, broken.part),
    }
}

// The lines that explain why the text of a file is refused.
fn file_lines(alloc: Global, cause: FileBreak, text: &[u8]) -> Result<Vec<u8>, AllocError>
    ensures { IfOk result (λ lines. ExplainFile cause text.now lines.items) }
{
    match cause {
        FileBreak::TooLong { .. } => length_lines(alloc),
        FileBreak::NotToml => toml_lines(alloc, text),
        FileBreak::Rule(found) => rule_lines(alloc, text, found),
    }
}

// The lines that explain why a row of a CSV text is wrong.
fn table_lines(
    alloc: Global,
    table: CsvTable,
    broken: RowBreak,
    text: &[u8],
) -> Result<Vec<u8>, AllocError>
    ensures { IfOk result (λ lines. ExplainRow table broken text.now lines.items) }
{
    let Ok(records) = all_rows(alloc, text) else {
        return Err(AllocError);
    };
    row_lines(alloc, table, broken, &records)
}

/// The lines that explain a refusal by the text of a file.
pub fn text_lines(alloc: Global, why: Refusal, text: &[u8]) -> Result<Vec<u8>, AllocError>
    ensures { IfOk result (λ lines. ExplainText why text.now lines.items) }
{
    match why {
        Refusal::First(cause) => file_lines(alloc, cause, text),
        Refusal::Second(cause) => file_lines(alloc, cause, text),
        Refusal::Row(table, broken) => table_lines(alloc, table, broken, text),
        Refusal::Policy(broken) => file_lines(alloc, broken.cause, text),
        _ => Ok(Vec::new(alloc)),
    }
}

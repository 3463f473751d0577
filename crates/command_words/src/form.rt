//! The forms of an answer, and the words that name them.

ghost use Rattle.std.specs.Prelude.{◌≡◌};
ghost use Rattle.command_words.specs.Commands.{request_of};
ghost use Rattle.command_words.specs.Forms.{behind_form, can_be_in, form_named, form_of, has_rows};
ghost use Rattle.command_words.specs.Readings.{words_of};

use crate::Command;

/// How an answer is printed.
#[derive(Clone, Copy, Debug, PartialEq, Eq)]
pub enum Form {
    /// As the command's own report, with its columns.
    Report,
    /// As records of comma-separated values.
    Csv,
    /// As JSON, with the evidence of the files that were read.
    Json,
    /// As a report, with words behind a refusal.
    Explained,
}

// The form that a first word names, or a report.
fn form_by(word: &str) -> Form
    ensures { result ≡ form_named word.now }
{
    match word {
        "csv" => Form::Csv,
        "json" => Form::Json,
        "explain" => Form::Explained,
        _ => Form::Report,
    }
}

// The form that the words begin with, or a report.
pub(crate) fn form_in(words: &[String]) -> Form
    ensures { result ≡ form_of (words_of words.entry.now) }
{
    if words.is_empty() {
        Form::Report
    } else {
        form_by(words[0].as_str())
    }
}

// The words of the command.
pub(crate) fn words_behind(form: Form, words: &[String]) -> &[String]
    ensures { words_of result.now ≡ behind_form form (words_of words.entry.now) }
{
    if form == Form::Report || words.is_empty() {
        words
    } else {
        &words[1..]
    }
}

// Whether the answer has rows.
fn prints_rows(command: Command) -> bool
    ensures { result ≡ has_rows (request_of command.entry) }
{
    match command {
        Command::Value(_)
        | Command::Reserves(_, _)
        | Command::Occupancy(_, _)
        | Command::Moments(_, _)
        | Command::Premium(_)
        | Command::Compare(_, _, _)
        | Command::Audit(_, _, _)
        | Command::Portfolio(_)
        | Command::Merge(_) => true,
        _ => false,
    }
}

// Whether an answer to the command can be printed in this form.
pub(crate) fn fits(form: Form, command: Command) -> bool
    ensures { result ≡ can_be_in form (request_of command.entry) }
{
    match form {
        Form::Report => true,
        Form::Csv | Form::Json => prints_rows(command),
        Form::Explained => !matches!(command, Command::Help | Command::Version),
    }
}

//! What the words ask for, and in which form.

ghost use Rattle.std.specs.Prelude.{IfSome, IfNone};
ghost use Rattle.command_words.specs.Commands.{request_of};
ghost use Rattle.command_words.specs.Forms.{AreReadIn, HaveReading};
ghost use Rattle.command_words.specs.Readings.{words_of};

use crate::form::{fits, form_in, words_behind};
use crate::words::command_in;
use crate::{Command, Form};

/// What the words ask for, and in which form.
#[derive(Clone, Copy, Debug, PartialEq, Eq)]
pub struct Reading<'a> {
    pub form: Form,
    pub command: Command<'a>,
}

/// What the words ask for: a command, or a form's word before a command whose answer can be printed in that form;
/// `None` exactly where they have no reading. Takes no memory.
pub fn read_words(words: &[String]) -> Option<Reading<'_>>
    ensures some { IfSome result (λ read. AreReadIn (words_of words.entry.now) read.form (request_of read.command)) }
    ensures none { IfNone result (¬ HaveReading (words_of words.entry.now)) }
{
    let form = form_in(words);
    let command = command_in(words_behind(form, words))?;
    if fits(form, command) {
        Some(Reading { form, command })
    } else {
        None
    }
}

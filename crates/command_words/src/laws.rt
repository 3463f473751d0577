//! What holds of all words. Each function says a law and returns at once.

ghost use Rattle.command_words.specs.Forms.{ReadingsAreOne};
ghost use Rattle.command_words.specs.Readings.{CommandsAreOne};

/// The words of a command have one reading.
pub fn commands_are_one()
    ensures { CommandsAreOne }
{}

/// Words have at most one reading, in one form.
pub fn readings_are_one()
    ensures { ReadingsAreOne }
{}

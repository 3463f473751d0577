//! The words of the commands.

ghost use Rattle.std.specs.Prelude.{[], ◌∷◌, IfSome, IfNone};
ghost use Rattle.command_words.specs.Commands.{request_of};
ghost use Rattle.command_words.specs.Readings.{words_of, AreReadAs, AreACommand};

use crate::Command;
use crate::number::{months_of, number_of};
use decimal_in::{decimal, signed_whole, unsigned_decimal, unsigned_millionths};

// The most digits of an amount.
const MOST_DIGITS: usize = 18;

// A command without a file.
fn one_word(command: &str) -> Option<Command<'static>>
    ensures some { IfSome result (λ read. AreReadAs (command.now ∷ []) (request_of read)) }
    ensures none { IfNone result (¬ AreACommand (command.now ∷ [])) }
{
    match command {
        "help" => Some(Command::Help),
        "version" => Some(Command::Version),
        _ => None,
    }
}

// A command about one file, or one seed.
fn two_words<'a>(command: &str, word: &'a str) -> Option<Command<'a>>
    ensures some { IfSome result (λ read. AreReadAs (command.now ∷ word.now ∷ []) (request_of read)) }
    ensures none { IfNone result (¬ AreACommand (command.now ∷ word.now ∷ [])) }
{
    if command == "generate" {
        return match number_of(word) {
            Some(seed) => Some(Command::Generate(seed)),
            None => None,
        };
    }
    if command == "load" {
        return match number_of(word) {
            Some(seed) => Some(Command::Load(seed)),
            None => None,
        };
    }
    if word.is_empty() {
        return None;
    }
    match command {
        "check" => Some(Command::Check(word)),
        "value" => Some(Command::Value(word)),
        "premium" => Some(Command::Premium(word)),
        "upgrade" => Some(Command::Upgrade(word)),
        "portfolio" => Some(Command::Portfolio(word)),
        "merge" => Some(Command::Merge(word)),
        _ => None,
    }
}

// A command about two files, about a file at dates, or about a change of its product.
fn three_words<'a>(command: &str, file: &'a str, last: &'a str) -> Option<Command<'a>>
    ensures some { IfSome result (λ read. AreReadAs (command.now ∷ file.now ∷ last.now ∷ []) (request_of read)) }
    ensures none { IfNone result (¬ AreACommand (command.now ∷ file.now ∷ last.now ∷ [])) }
{
    if file.is_empty() {
        return None;
    }
    match command {
        "join" if !last.is_empty() => Some(Command::Join(file, last)),
        "reserves" => Some(Command::Reserves(file, months_of(last)?)),
        "occupancy" => Some(Command::Occupancy(file, months_of(last)?)),
        "moments" => Some(Command::Moments(file, months_of(last)?)),
        "shift" => Some(Command::Shift(file, decimal(last.as_bytes())?)),
        "charge" => Some(Command::Charge(file, signed_whole(last.as_bytes(), MOST_DIGITS)?)),
        _ => None,
    }
}

// A command about two files, at dates or to a distance.
fn four_words<'a>(command: &str, first: &'a str, second: &'a str, last: &str) -> Option<Command<'a>>
    ensures some { IfSome result (λ read.
        AreReadAs (command.now ∷ first.now ∷ second.now ∷ last.now ∷ []) (request_of read)) }
    ensures none { IfNone result (¬ AreACommand (command.now ∷ first.now ∷ second.now ∷ last.now ∷ [])) }
{
    if first.is_empty() || second.is_empty() {
        return None;
    }
    match command {
        "compare" => Some(Command::Compare(first, second, months_of(last)?)),
        "audit" => Some(Command::Audit(first, second, unsigned_millionths(last.as_bytes())?)),
        _ => None,
    }
}

// A command about the intensity between two states.
fn five_words<'a>(
    command: &str,
    file: &'a str,
    from: &'a str,
    to: &'a str,
    last: &str,
) -> Option<Command<'a>>
    ensures some { IfSome result (λ read.
        AreReadAs (command.now ∷ file.now ∷ from.now ∷ to.now ∷ last.now ∷ []) (request_of read)) }
    ensures none { IfNone result (¬ AreACommand (command.now ∷ file.now ∷ from.now ∷ to.now ∷ last.now ∷ [])) }
{
    if file.is_empty() || from.is_empty() || to.is_empty() {
        return None;
    }
    match command {
        "multiply" => Some(Command::Multiply(file, from, to, unsigned_decimal(last.as_bytes())?)),
        _ => None,
    }
}

// The command of a line's words; `None` exactly where they are those of none.
pub(crate) fn command_in(line: &[String]) -> Option<Command<'_>>
    ensures some { IfSome result (λ read. AreReadAs (words_of line.entry.now) (request_of read)) }
    ensures none { IfNone result (¬ AreACommand (words_of line.entry.now)) }
{
    match line {
        [command] => one_word(command.as_str()),
        [command, word] => two_words(command.as_str(), word.as_str()),
        [command, file, last] => three_words(command.as_str(), file.as_str(), last.as_str()),
        [command, first, second, last] => {
            four_words(
                command.as_str(),
                first.as_str(),
                second.as_str(),
                last.as_str(),
            )
        }
        [command, file, from, to, last] => {
            five_words(
                command.as_str(),
                file.as_str(),
                from.as_str(),
                to.as_str(),
                last.as_str(),
            )
        }
        _ => None,
    }
}

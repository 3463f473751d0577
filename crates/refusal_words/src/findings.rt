//! What is found at the place of a broken rule, and what is wanted there.

ghost use Rattle.std.specs.Prelude.{◌≡◌, ◌++◌, OnOk};
ghost use Rattle.toml.specs.View.{table_view};
ghost use Rattle.refusal_words.specs.Findings as spec;
ghost use Rattle.refusal_words.specs.Findings.{count_lines, finding_lines, found_line, no_further_lines, number_lines};
ghost use Rattle.refusal_words.specs.Findings.{number_word};
ghost use Rattle.refusal_words.specs.Findings.{range, start_found, start_line, start_lines, start_words, want_text};
ghost use Rattle.refusal_words.specs.Findings.{wanted_line};

use crate::key_texts::push_key_lines;
use crate::names::is_shown;
use crate::places::Thing;
use decimal_out::push_whole;
use file_tree::text_of;
use std::alloc::AllocError;
use toml::Table;

/// A number that a rule limits.
#[derive(Clone, Copy, Debug, PartialEq, Eq)]
pub enum Number {
    Format,
    Months,
    Den,
    From,
    Amount,
    Month,
    Until,
    Every,
}

/// What is wanted, where no number is told.
#[derive(Clone, Copy, Debug, PartialEq, Eq)]
pub enum Want {
    SomePiece,
    SomeStep,
    /// A piece of format 1, or a step of format 2.
    FourNumbers,
    /// A piece of format 2.
    SixNumbers,
    /// A step of format 1.
    Amount,
}

/// What is found at a place, where that can be told simply.
#[derive(Clone, Copy, Debug, PartialEq, Eq)]
pub enum Finding {
    Nothing,
    /// A number that is not from `low` to `high`.
    Outside {
        number: Number,
        found: i64,
        low: i64,
        high: i64,
    },
    /// How many states there are, and how many there may be.
    States {
        found: u64,
        most: u64,
    },
    /// The month of a piece or a step behind which none is left, as the one before starts in the last month or later.
    NoFurther(i64),
    /// A key of the top table that is missing or has a value of a wrong type.
    Key(Thing),
    /// The start is no state.
    Start,
    Wants(Want),
}

impl Number {
    /// Its word in the file.
    #[tactic(auto, unfolding(crate::specs::Findings::number_word))]
    pub fn word(self) -> &'static [u8]
        ensures { result.now ≡ number_word self }
    {
        match self {
            Number::Format => b"format",
            Number::Months => b"months",
            Number::Den => b"den",
            Number::From => b"from",
            Number::Amount => b"amount",
            Number::Month => b"month",
            Number::Until => b"until",
            Number::Every => b"every",
        }
    }
}

impl Want {
    /// Its lines.
    #[tactic(auto, unfolding(crate::specs::Findings::want_text))]
    pub fn text(self) -> &'static [u8]
        ensures { result.now ≡ want_text self }
    {
        match self {
            Want::SomePiece => b"found: no piece\nwanted: at least one piece\n",
            Want::SomeStep => b"found: no step\nwanted: at least one step\n",
            Want::FourNumbers => b"wanted: from, a whole number, and c, 1 to 4 whole numbers\n",
            Want::SixNumbers => b"wanted: from, a whole number, and c, 1 to 6 whole numbers\n",
            Want::Amount => b"wanted: from and amount, both whole numbers\n",
        }
    }
}

// Appends a number with its word.
#[tactic(auto, unfolding(crate::specs::Findings::equals))]
fn push_equals(out: &mut Vec<u8>, number: Number, value: i64) -> Result<(), AllocError>
    ensures { OnOk result (out.new.items ≡ out.old.items ++ spec.equals number value) }
{
    out.extend_from_slice(number.word())?;
    out.extend_from_slice(b" = ")?;
    push_whole(out, value)
}

// Appends a range, or the one number of it.
#[tactic(auto, unfolding(crate::specs::Findings::range))]
fn push_range(out: &mut Vec<u8>, number: Number, low: i64, high: i64) -> Result<(), AllocError>
    ensures { OnOk result (out.new.items ≡ out.old.items ++ range number low high) }
{
    push_equals(out, number, low)?;
    if low < high {
        out.extend_from_slice(b" to ")?;
        push_whole(out, high)?;
    }
    Ok(())
}

// Appends the line of the number that is found.
#[tactic(auto, unfolding(crate::specs::Findings::found_line))]
fn push_found(out: &mut Vec<u8>, number: Number, found: i64) -> Result<(), AllocError>
    ensures { OnOk result (out.new.items ≡ out.old.items ++ found_line number found) }
{
    out.extend_from_slice(b"found: ")?;
    push_equals(out, number, found)?;
    out.extend_from_slice(b"\n")
}

// Appends the line of the range that is wanted.
#[tactic(auto, unfolding(crate::specs::Findings::wanted_line))]
fn push_wanted(out: &mut Vec<u8>, number: Number, low: i64, high: i64) -> Result<(), AllocError>
    ensures { OnOk result (out.new.items ≡ out.old.items ++ wanted_line number low high) }
{
    out.extend_from_slice(b"wanted: ")?;
    push_range(out, number, low, high)?;
    out.extend_from_slice(b"\n")
}

// Appends both lines of a number.
#[tactic(auto, unfolding(crate::specs::Findings::number_lines))]
fn push_number_lines(
    out: &mut Vec<u8>,
    number: Number,
    found: i64,
    low: i64,
    high: i64,
) -> Result<(), AllocError>
    ensures { OnOk result (out.new.items ≡ out.old.items ++ number_lines number found low high) }
{
    push_found(out, number, found)?;
    push_wanted(out, number, low, high)
}

// Appends the lines of a start behind which no month is left.
#[tactic(auto, unfolding(crate::specs::Findings::no_further_lines))]
fn push_no_further_lines(out: &mut Vec<u8>, start: i64) -> Result<(), AllocError>
    ensures { OnOk result (out.new.items ≡ out.old.items ++ no_further_lines start) }
{
    push_found(out, Number::From, start)?;
    out.extend_from_slice(
        b"wanted: no further piece or step here, since the one before starts in the last month or later\n",
    )
}

// Appends the lines of the number of states.
#[tactic(auto, unfolding(crate::specs::Findings::count_lines))]
fn push_count_lines(out: &mut Vec<u8>, found: u64, most: u64) -> Result<(), AllocError>
    ensures { OnOk result (out.new.items ≡ out.old.items ++ count_lines found most) }
{
    out.extend_from_slice(b"found: ")?;
    push_whole(out, found)?;
    out.extend_from_slice(b" states\nwanted: 1 to ")?;
    push_whole(out, most)?;
    out.extend_from_slice(b" states\n")
}

// The words before a start.
#[tactic(auto, unfolding(crate::specs::Findings::start_words))]
fn start_words() -> &'static [u8]
    ensures { result.now ≡ start_words }
{
    b"found: start = "
}

// Appends the line of a start.
#[tactic(auto, unfolding(crate::specs::Findings::start_line))]
fn push_start_line(out: &mut Vec<u8>, start: &str) -> Result<(), AllocError>
    ensures { OnOk result (out.new.items ≡ out.old.items ++ start_line start.now) }
{
    out.extend_from_slice(start_words())?;
    out.extend_from_slice(start.as_bytes())?;
    out.extend_from_slice(b"\n")
}

// Appends the line of a start, where it is shown.
#[tactic(auto, unfolding(crate::specs::Findings::start_found))]
fn push_start(out: &mut Vec<u8>, start: &str) -> Result<(), AllocError>
    ensures { OnOk result (out.new.items ≡ out.old.items ++ start_found start.now) }
{
    if is_shown(start) {
        push_start_line(out, start)
    } else {
        Ok(())
    }
}

// Appends the lines of a start that is no state.
#[tactic(auto, unfolding(crate::specs::Findings::start_lines))]
fn push_start_lines(out: &mut Vec<u8>, tree: &Table) -> Result<(), AllocError>
    ensures { OnOk result (out.new.items ≡ out.old.items ++ start_lines (table_view tree.now)) }
{
    push_start(out, text_of(tree, "start"))?;
    out.extend_from_slice(b"wanted: start = the name of a state\n")
}

/// Appends the lines of what is found and what is wanted.
pub fn push_finding(out: &mut Vec<u8>, tree: &Table, finding: Finding) -> Result<(), AllocError>
    ensures { OnOk result (out.new.items ≡ out.old.items ++ finding_lines (table_view tree.now) finding) }
{
    match finding {
        Finding::Nothing => Ok(()),
        Finding::Outside {
            number,
            found,
            low,
            high,
        } => push_number_lines(out, number, found, low, high),
        Finding::States { found, most } => push_count_lines(out, found, most),
        Finding::NoFurther(start) => push_no_further_lines(out, start),
        Finding::Key(key) => push_key_lines(out, tree, key),
        Finding::Start => push_start_lines(out, tree),
        Finding::Wants(want) => out.extend_from_slice(want.text()),
    }
}

//! The commands.

use decimal_in::Decimal;

/// What the words ask for. `EVERY` is a number of months from 1 to 1200.
#[derive(Clone, Copy, Debug, PartialEq, Eq)]
pub enum Command<'a> {
    /// Check the product of the file and print its limits.
    Check(&'a str),
    /// The value at issue in the start state, the lump of month 0 included.
    Value(&'a str),
    /// The reserves of all states at dates 0, `EVERY`, 2 `EVERY` and so on, up to the term.
    Reserves(&'a str, u32),
    /// The occupancy probabilities at these dates, from the start state.
    Occupancy(&'a str, u32),
    /// First moment, second moment and variance at these dates.
    Moments(&'a str, u32),
    /// The equivalence premium of the premium pattern.
    Premium(&'a str),
    /// Print the product file that is generated from a seed.
    Generate(u64),
    /// The reserves of the product that is generated from a seed, summed up in three lines.
    Load(u64),
    /// Print the product as a file of format 2.
    Upgrade(&'a str),
    /// Print both products as one, the chain of the pairs of their states.
    Join(&'a str, &'a str),
    /// The changes of the reserves from the basis of the first file to that of the second, at these dates.
    Compare(&'a str, &'a str, u32),
    /// Which of the claims in the second file are near the reserves of the product in the first one: at most so many
    /// millionths of a minor unit away.
    Audit(&'a str, &'a str, i128),
    /// The totals by group of the reserves of the contracts that a CSV file holds.
    Portfolio(&'a str),
    /// The words of the commands.
    Help,
    /// The program's version.
    Version,
    /// Print the product as a file with this rate a year added to its interest.
    Shift(&'a str, Decimal),
    /// Print the product as a file with the intensity between two states, by their names, times this factor of at
    /// least 0.
    Multiply(&'a str, &'a str, &'a str, Decimal),
    /// Print the product as a file with so many times its premium pattern taken off its payments.
    Charge(&'a str, i64),
    /// The totals by group of the totals that a CSV file holds.
    Merge(&'a str),
}

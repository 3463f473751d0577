// A report as numbers, before it is text.

use report_columns::Note;

/// The command that a report answers.
#[derive(Clone, Copy, Debug, PartialEq, Eq)]
pub enum Kind {
    /// The value at issue in the start state, the lump of month 0 included.
    Value,
    /// The reserves of all states, by date and then by state, each without the lump of its date.
    Reserves,
    /// The probabilities of all states, by date and then by state, from the start state at issue.
    Occupancy,
    /// First moment, second moment and variance of the payments after each date, by date and then by state.
    Moments,
    /// The value of the benefits, that of a premium of 1, and the equivalence premium.
    Premium,
}

/// A report: the greatest degree that its runs used, the scale of the ledgers, and a tolerance for each row.
#[derive(Drop)]
pub struct Report {
    pub kind: Kind,
    pub degree: u8,
    /// The scale of the payment plan, and 0 where probabilities are reported.
    pub scale: u8,
    /// In the unit of the rows, in the rows' order.
    pub tolerance: Vec<u128>,
    pub rows: Vec<Note>,
}

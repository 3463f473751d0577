// A row as columns are told of it.

/// What a row is about.
#[derive(Clone, Copy, Debug, PartialEq, Eq)]
pub enum What {
    /// The value at issue, in millionths of a minor unit.
    Value,
    /// The reserve at a date in a state, in millionths of a minor unit.
    Reserve,
    /// The probability to be in a state at a date, in millionths.
    Occupancy,
    /// The first moment at a date in a state, in millionths of a minor unit.
    First,
    /// The second moment at a date in a state, in whole squared minor units.
    Second,
    /// The variance at a date in a state, in whole squared minor units.
    Variance,
    /// The value at issue of the payments, in millionths of a minor unit.
    Benefits,
    /// The value at issue of the premium pattern, in millionths.
    Pattern,
    /// The equivalence premium, in millionths of a minor unit.
    Premium,
    /// The total of the reserves of a group of contracts, in millionths of a minor unit.
    Total,
}

/// One printed interval, both ends included, in the unit of what it is about.
#[derive(Clone, Copy, Debug, PartialEq, Eq)]
pub struct Note {
    /// Months from issue.
    pub month: u32,
    /// The state's index in the file's list of states; of a total, the index of the group.
    pub state: u32,
    pub what: What,
    /// Rounded down.
    pub lo: i128,
    /// Rounded up.
    pub hi: i128,
}

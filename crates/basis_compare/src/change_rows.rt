//! The rows of a comparison, before they are text.

/// A part of the change of a reserve from basis A to basis B, by way of the hybrid H: A with the interest of B.
#[derive(Clone, Copy, Debug, PartialEq, Eq)]
pub enum Part {
    /// The step of the interest: from A to H.
    Interest,
    /// The step of all else: from H to B.
    Rest,
    /// From A to B.
    Total,
}

/// Whether the sign of a change is proved.
#[derive(Clone, Copy, Debug, PartialEq, Eq)]
pub enum Turn {
    /// The change is above 0.
    Above,
    /// The change is below 0.
    Below,
    /// The ends leave it open. The change is at most the tolerance in size.
    Open,
}

/// A part of the change of the reserve of a date and state, between ends in millionths of a minor unit.
#[derive(Clone, Copy, Debug, PartialEq, Eq)]
pub struct Change {
    pub month: u32,
    pub state: u32,
    pub part: Part,
    pub lo: i128,
    pub hi: i128,
    /// How far the ends may lie apart: the sum of the tolerances of both reserves.
    pub tol: u128,
    pub turn: Turn,
}

/// The changes by date, then by state, then by part. They hold for the runs of this degree and of each greater one.
#[derive(Debug, Drop)]
pub struct Changes {
    /// The greatest degree of the tables of the three bases.
    pub degree: u8,
    pub rows: Vec<Change>,
}

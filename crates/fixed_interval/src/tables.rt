//! Results by date and state.

use crate::interval::Interval;
use crate::printed::Printed;

/// Printed ends at the dates 0, `every`, 2 `every` and so on, in each of some states: those of state i at date
/// `k * every` stand at `k * states + i`. They hold for the runs of this degree and of each greater one.
#[derive(Debug, Drop)]
pub struct Table {
    pub degree: u8,
    /// In months.
    pub every: u32,
    pub states: usize,
    pub cells: Vec<Printed>,
}

/// First moments, second moments and variances of the same dates and states, all for the same degree: the first in
/// millionths, the others whole.
#[derive(Debug, Drop)]
pub struct MomentTable {
    pub first: Table,
    pub second: Table,
    pub variance: Table,
}

/// The value of the benefits, that of a premium of 1, and the premium that makes both equal, in millionths. They hold
/// for the runs of this degree and of each greater one.
#[derive(Clone, Copy, Debug, PartialEq, Eq)]
pub struct PremiumTable {
    pub degree: u8,
    pub benefits: Printed,
    pub pattern: Printed,
    pub premium: Printed,
}

/// A value in units of 2^-64 minor units. It holds for the runs of this degree and of each greater one.
#[derive(Clone, Copy, Debug, PartialEq, Eq)]
pub struct Valued {
    pub degree: u8,
    pub interval: Interval,
}

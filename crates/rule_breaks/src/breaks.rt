//! Where a file breaks a rule.

/// The first rule that a product file breaks, and the place: which of the things that the rule speaks of breaks it,
/// counted from 0 in the order of the file.
#[derive(Clone, Copy, Debug, PartialEq, Eq)]
pub struct RuleBreak {
    pub rule: u8,
    pub place: u32,
}

/// The first row of a table that is wrong, and the part of the row, both counted from 0.
#[derive(Clone, Copy, Debug, PartialEq, Eq)]
pub struct RowBreak {
    pub row: u64,
    pub part: u8,
}

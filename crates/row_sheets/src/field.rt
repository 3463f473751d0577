// A field of a row.

/// A field of a row.
#[derive(Debug, Drop)]
pub enum Field {
    /// A number that each reader holds exactly, as a month.
    Whole(u64),
    /// All else: names, words, and amounts, which keep their digits as a text.
    Text(String),
}

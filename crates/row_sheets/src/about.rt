// What JSON tells of an answer beside its rows.

use io_ports::Given;

/// What an answer is about, and what it holds for.
#[derive(Clone, Copy, Debug)]
pub struct About<'a> {
    /// The command as it was given, word by word.
    pub words: &'a [String],
    /// The files in the order in which they were read.
    pub files: &'a [Given],
    /// The degree from which the rows hold, where the answer has one.
    pub degree: Option<u8>,
    /// The scale of the ledgers, where the answer has one.
    pub scale: Option<u8>,
}

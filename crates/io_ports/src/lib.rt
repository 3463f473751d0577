//! Where a program's bytes come from and where they go, as two traits that count their faults. Of each file that was
//! given there is evidence: its length and its SHA-256.
#![tactic(auto)]

mod calls;
mod file_shelf;
mod given;
mod memory_shelf;
mod memory_sink;
mod shelf;
mod sink;
mod std_sink;
#[cfg(test)]
mod tests;

pub use file_shelf::FileShelf;
pub use given::Given;
pub use memory_shelf::MemoryShelf;
pub use memory_sink::MemorySink;
pub use shelf::{FetchError, Shelf};
pub use sink::{Sink, SinkFault};
pub use std_sink::StdSink;

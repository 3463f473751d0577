//! Numbers as text, appended to a buffer. A call whose memory is refused leaves the buffer as it was.
#![tactic(auto)]

mod millionths;
mod whole;

pub use millionths::{push_millionths, push_size};
pub use whole::push_whole;

#[cfg(test)]
mod tests;

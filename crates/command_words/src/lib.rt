//! Reads the words of the command line.
#![tactic(auto)]

mod command;
mod form;
mod laws;
mod number;
mod reading;
mod words;

pub use command::Command;
pub use form::Form;
pub use laws::{commands_are_one, readings_are_one};
pub use reading::{Reading, read_words};

#[cfg(test)]
mod tests;

//! The command that the words of the command line spell.
#![tactic(auto)]

mod command;
mod forms;
mod multiple;
mod names;
mod number;
mod options;
mod words;

pub use command::Command;
pub use words::read_words;

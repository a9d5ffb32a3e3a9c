//! What the program does: `run`, the top call, whose contract is what the program promises, and the
//! statuses with which it ends.
//!
//! A command reads its files or makes its junction, and ends with its answer, which is pushed, and before that put where
//! it is a design; or it is ended by a fault of the shelf or the sink, or by want of memory. How that may go is said once, for all commands (`Outcome`);
//! what a command answers is said command by command.
#![tactic(auto)]

mod designing;
mod ending;
mod fetching;
mod files;
mod judging;
mod junctions;
mod playing;
mod putting;
mod sampling;
mod status;
mod top_call;
mod words;

pub use command_words::{Command, read_words};
pub use status::Status;
pub use top_call::run;
pub use words::given_words;

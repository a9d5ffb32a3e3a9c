//! The greatest reserve capacity over all cycles of a junction.
#![tactic(auto)]

mod greatest;
mod trimming;

pub use greatest::capacity;

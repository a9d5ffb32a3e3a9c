//! Large junctions from a number: each number has one, whose groups, lanes and conflicts are drawn
//! by a linear congruential generator.
#![tactic(auto)]

mod conflicts;
mod draws;
mod groups;
mod label;
mod lanes;
mod laws;
mod pairs;
mod sampling;

pub use laws::sample_law;
pub use sampling::sample;

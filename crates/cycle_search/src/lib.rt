//! The shortest cycle at which some plan of a junction meets a flow multiple.
#![tactic(auto)]

mod shortest_cycle;

pub use shortest_cycle::shortest;

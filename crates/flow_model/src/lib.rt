//! Traffic lanes: the effective green of a signal group, and a lane's degree of saturation and flow
//! multiplier at a cycle, as exact fractions.
#![tactic(auto)]

mod flow;
mod lane;

pub use flow::{effective, lane_multiplier, saturation};
pub use lane::{Lane, MOST_FLOW, WHOLE};

//! The mean delay of a lane's vehicles under a plan, as an exact fraction.
#![tactic(auto)]

mod divisor;
mod lane_delay;
mod laws;
mod term;
mod wide_ratio;

pub use lane_delay::delay;
pub use laws::delay_law;
pub use wide_ratio::WideRatio;

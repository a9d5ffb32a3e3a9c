//! Longer greens for the starts that a plan has.
#![tactic(auto)]

mod laws;
mod room;
mod stretching;

pub use laws::stretch_law;
pub use stretching::stretch;

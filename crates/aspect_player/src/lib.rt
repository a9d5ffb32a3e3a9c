//! A plan that is played: the aspect that each group shows at each second, the rows of all seconds,
//! and the law that rows of a plan that fits are safe, however many there are.
#![tactic(auto)]

mod aspect;
mod fault;
mod laws;
mod lines;
mod player;
mod rows;

pub use aspect::Aspect;
pub use fault::PlayFault;
pub use laws::safety_law;
pub use lines::{push_header, push_row};
pub use player::Player;
pub use rows::write_rows;

//! Changing plans without a cut green: greens that stand, or that red-amber has announced, run out
//! whole, a gap follows, and the new plan begins.
#![tactic(auto)]

mod change_list;
mod changer;
mod head;
mod heads;
mod laws;
mod request;
mod writing;

pub use change_list::{ChangeList, PlannedChange};
pub use changer::Changer;
pub use laws::{change_safety_law, past_law, settled_law};
pub use request::Request;
pub use writing::write_changes;

//! The stages of a plan: which groups are green together, and for how long.
#![tactic(auto)]

mod finding;
mod green_set;
mod laws;
mod stage;
mod stage_list;

pub use finding::stages;
pub use laws::one_stage_law;
pub use stage::Stage;
pub use stage_list::StageList;

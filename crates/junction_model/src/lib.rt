//! One junction: its signal groups, lanes, conflicts and cycle limits. A `Junction` keeps every rule
//! of a junction file, so that no layer above tests any of them again.
#![tactic(auto)]

mod covers;
mod group;
mod junction;
mod labelled;
mod rules;

pub use group::Group;
pub use junction::Junction;

//! The lanes that are the bottleneck of a junction: a set of lanes that alone holds the multiplier
//! of all plans down, and of which none can be left out.
//!
//! A plan that beats a multiple over a set of lanes does so over every smaller set. So each lane is
//! tested once: the search over all cycles for a plan that beats the multiple over the lanes that
//! are left without it. Where there is none the lane is left out; else it stays needed, however
//! many lanes above it are left out later. The sets that can't be made smaller needn't be alike, so
//! the order of the tests decides which one is found: of two lanes that hold alike, the earlier one
//! is left out.
//!
//! There are as many tests as lanes with arrivals, and each may visit as many nodes as the budget.
#![tactic(auto)]

mod answer;
mod arrivals;
mod critical;
mod laws;
mod plan_list;
mod testing;
mod trimming;
mod writing;

pub use answer::{BottleAnswer, CriticalLanes};
pub use critical::bottleneck;
pub use laws::critical_law;
pub use plan_list::PlanList;
pub use writing::write_bottleneck;

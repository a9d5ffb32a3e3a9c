//! Least greens: which green of a signal group serves a flow multiple at a cycle, and a rule that keeps a
//! closure beside the fact that it answers that.
//!
//! What a green serves, every longer one at the same cycle serves too. So the greens that serve a lane are those from a
//! least one on, and one division a lane finds it, where the definition tries each green. A group's need is the greatest
//! of its minimum and of its lanes' least greens, or 301 where that is above its maximum. A green up to the maximum is
//! enough exactly where it is at least the need, and a plan meets a target exactly where it fits and no green is below
//! its group's need. Targets are ordered, and what serves the greater one serves the lesser one too: needs rise with the
//! target.
#![tactic(auto)]

mod group_need;
mod laws;
mod least_green;
mod rule;

pub use group_need::{need, needs};
pub use laws::{
    beaten_law, beside_law, closed_cycle_law, need_law, needs_law, outdone_law, passed_plan_law,
    plan_need_law, rising_law, target_law,
};
pub use rule::{NeedClosure, NeedRule};

//! Signal plans of a junction in whole seconds: when a group is green, whether a plan is clear and
//! fits, and the greatest flow multiple at which each lane's degree of saturation stays within its
//! limit. A `FittedPlan` keeps that its plan fits the junction that it borrows.
#![tactic(auto)]

mod clash;
mod effective_green;
mod fault;
mod fit;
mod fitted_plan;
mod green;
mod laws;
mod least_multiplier;
mod links;
mod plan;
mod range;
mod rotation;

pub use effective_green::effective_green_of;
pub use fault::PlanFault;
pub use fit::fits;
pub use fitted_plan::FittedPlan;
pub use green::is_green;
pub use laws::{
    all_lanes_law, closed_tree_law, fault_law, fault_names_law, full_order_fits_law, gap_law,
    green_below_cycle_law, multiplier_law, optimal_law, own_order_law, rotation_law, serving_law,
    shortening_law,
};
pub use least_multiplier::{ALL_LANES, multiplier, plan_multiplier};
pub use plan::Plan;
pub use rotation::rotate;

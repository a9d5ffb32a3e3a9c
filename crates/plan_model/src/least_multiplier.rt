ghost use Rattle.std.specs.Prelude.{◌≡◌, ◌↔◌, ◌+◌, ◌≤◌, ◌<◌, ◌⊎◌, length, IsNone, IfSome};
ghost use Rattle.sig_base.specs.Fraction.{IsAtMost};
ghost use Rattle.sig_base.specs.Ratio.{fraction_of};
ghost use Rattle.plan_model.specs.Claims.{IsPlanMultiplier};
ghost use Rattle.plan_model.specs.Multiplier.{IsLeastMultiplier};
ghost use Rattle.plan_model.specs.MultiplierLaws.{HasFlow};
ghost use Rattle.plan_model.specs.Least.{IsMultiplierAt, IsCountedAt, FoundBelow};
ghost use Rattle.plan_model.specs.FittedPlan.{junction_of, fitted_plan_of};

use crate::effective_green::effective_green_of;
use crate::fitted_plan::FittedPlan;
use crate::laws::{all_lanes_law, multiplier_law};
use flow_model::lane_multiplier;
use sig_base::{LaneSet, Ratio};
use std::cmp::Ordering;

/// Every lane that a junction can have.
pub const ALL_LANES: LaneSet = LaneSet { bits: u32::MAX };

/// The lane's multiplier; `None` exactly where nothing arrives.
fn own_multiplier(plan: &FittedPlan, lane: usize) -> Option<Ratio>
    requires { lane < length (junction_of plan.now).lanes }
    ensures { IsMultiplierAt (junction_of plan.now) (fitted_plan_of plan.now) lane result }
{
    plan.junction().rules();
    let own = &plan.junction().lanes()[lane];
    lane_multiplier(
        own,
        effective_green_of(plan, own.group as usize),
        plan.plan().cycle(),
    )
}

/// The lane's multiplier, where the lane is in the set.
fn chosen_multiplier(plan: &FittedPlan, lanes: LaneSet, lane: usize) -> Option<Ratio>
    requires inside { lane < length (junction_of plan.now).lanes }
    requires few { lane < 32 }
    ensures { IsCountedAt (junction_of plan.now) (fitted_plan_of plan.now) lanes lane result }
{
    if lanes.contains(lane) {
        own_multiplier(plan, lane)
    } else {
        None
    }
}

fn lesser(a: Ratio, b: Ratio) -> Ratio
    ensures first { IsAtMost (fraction_of result) (fraction_of a) }
    ensures second { IsAtMost (fraction_of result) (fraction_of b) }
    ensures either { (fraction_of result ≡ fraction_of a) ⊎ (fraction_of result ≡ fraction_of b) }
{
    if b.compare(&a) == Ordering::Less {
        b
    } else {
        a
    }
}

/// The least multiplier with one lane more.
fn with_lane(plan: &FittedPlan, lanes: LaneSet, lane: usize, least: Option<Ratio>) -> Option<Ratio>
    requires inside { lane < length (junction_of plan.now).lanes }
    requires few { lane < 32 }
    requires below { FoundBelow (junction_of plan.now) (fitted_plan_of plan.now) lanes lane least }
    ensures { FoundBelow (junction_of plan.now) (fitted_plan_of plan.now) lanes (lane + 1) result }
{
    let Some(own) = chosen_multiplier(plan, lanes, lane) else {
        return least;
    };
    match least {
        Some(found) => Some(lesser(found, own)),
        None => Some(own),
    }
}

/// The greatest flow multiple at which each lane of the set keeps its limit under the plan: the least
/// of their multipliers. `None` exactly where none of them has an arrival above 0.
pub fn multiplier(plan: &FittedPlan, lanes: LaneSet) -> Option<Ratio>
    ensures none { IsNone result ↔ ¬ HasFlow (junction_of plan.now) lanes }
    ensures least { IfSome result (λ m. IsLeastMultiplier (junction_of plan.now)
        (fitted_plan_of plan.now) lanes (fraction_of m)) }
{
    plan.junction().rules();
    let mut least = None;
    for lane in 0..plan.junction().lanes().len() {
        least = with_lane(plan, lanes, lane, least);
    }
    least
}

/// The plan's multiplier: the least multiplier over all lanes.
pub fn plan_multiplier(plan: &FittedPlan) -> Ratio
    ensures { IsPlanMultiplier (junction_of plan.now) (fitted_plan_of plan.now)
        (fraction_of result) }
{
    all_lanes_law();
    multiplier_law();
    plan.junction().rules();
    match multiplier(plan, ALL_LANES) {
        Some(multiplier) => multiplier,
        None => unreachable!(),
    }
}

//! What is true of all plans of all junctions, for any number of groups. These functions do nothing:
//! each is the place where its law is proved.
ghost use Rattle.std.specs.Prelude.{◌≡◌};
ghost use Rattle.plan_model.specs.AllLanes.{all_lanes, AllLanesTargetLaw, AllLanesMultiplierLaw};
ghost use Rattle.plan_model.specs.MultiplierLaws.{LaneDenominatorLaw, SomeMultiplierLaw, OneMultiplierLaw, PlanMultiplierLaw, AllLanesFlowLaw};
ghost use Rattle.plan_model.specs.Claims.{OptimalLaw};
ghost use Rattle.plan_model.specs.FirstFault.{FaultLaw, FaultNamesLaw};
ghost use Rattle.plan_model.specs.Gap.{GapLaw, SpacingLaw};
ghost use Rattle.plan_model.specs.GreenBelowCycle.{GreenBelowCycleLaw, AmberBelowCycleLaw};
ghost use Rattle.plan_model.specs.FullOrder.{FullOrderFitsLaw};
ghost use Rattle.plan_model.specs.OwnOrder.{OwnOrderLaw, OneMarkLaw, ClosedTreeLaw};
ghost use Rattle.plan_model.specs.Serving.{LaneServingLaw, ServingLaw};
ghost use Rattle.plan_model.specs.Shortening.{ShorteningLaw};
ghost use Rattle.plan_model.specs.Rotation.{FirstStartLaw, RotationLaw};

use crate::least_multiplier::ALL_LANES;
use conflict_matrix::pair_laws;
use constraint_cycles::{edge_law, exclusion_law, tree_law};

/// A plan that fits has no fault.
pub fn fault_law()
    ensures { FaultLaw }
{}

/// The first fault of a plan names groups and links of the junction only.
pub fn fault_names_law()
    ensures { FaultNamesLaw }
{}

/// No green of a plan that fits fills its cycle, not even with the amber after it.
pub fn green_below_cycle_law()
    ensures green { GreenBelowCycleLaw }
    ensures amber { AmberBelowCycleLaw }
{}

/// A plan is clear exactly where each green and the intergreen after it end by the next start of the
/// conflicting group; and so a plan fits exactly where its gaps are long enough.
pub fn gap_law()
    ensures clear { GapLaw }
    ensures fits { SpacingLaw }
{}

/// A plan that fits may be rotated by any seconds, and keeps its gaps and its multipliers.
pub fn rotation_law()
    ensures any { RotationLaw }
    ensures first { FirstStartLaw }
{}

/// A plan that fits does so with shorter greens too, down to the minimum ones.
pub fn shortening_law()
    ensures { ShorteningLaw }
{}

/// What a green serves, every longer one at the same cycle serves too.
pub fn serving_law()
    ensures lane { LaneServingLaw }
    ensures plan { ServingLaw }
{}

/// Over all lanes a plan meets a target exactly where it meets, or beats, the target's ratio, and the
/// least multiplier is the plan's.
pub fn all_lanes_law()
    ensures set { ALL_LANES ≡ all_lanes }
    ensures target { AllLanesTargetLaw }
    ensures multiplier { AllLanesMultiplierLaw }
{}

/// Each set of lanes on which something arrives has one least multiplier, and each plan has one: on a lane of each
/// junction something arrives.
pub fn multiplier_law()
    ensures denominator { LaneDenominatorLaw }
    ensures some { SomeMultiplierLaw }
    ensures one { OneMultiplierLaw }
    ensures plan { PlanMultiplierLaw }
    ensures flow { AllLanesFlowLaw }
{}

/// No plan beats the multiplier of a plan, and none of a shorter cycle meets it, exactly where it is the greatest one,
/// and greater than each of a shorter cycle.
pub fn optimal_law()
    ensures { OptimalLaw }
{}

/// A plan that fits and begins with group 0 gives each item one mark, and meets the order of these marks.
pub fn own_order_law()
    ensures own { OwnOrderLaw }
    ensures one { OneMarkLaw }
{
    pair_laws();
    edge_law();
}

/// A tree that closes a cycle excludes every plan of that cycle that fits, begins with group 0 and has greens of at
/// least the needs.
pub fn closed_tree_law()
    ensures { ClosedTreeLaw }
{
    own_order_law();
    tree_law();
    exclusion_law();
}

/// Starts that meet a full order, with greens that the groups may have as the needs, are a plan that fits.
pub fn full_order_fits_law()
    ensures { FullOrderFitsLaw }
{
    pair_laws();
    edge_law();
}

//! What is true of all targets, needs and plans. These functions do nothing: each is the place where its laws are proved.
ghost use Rattle.least_greens.specs.BesideLaws.{ShorterBesideLaw, LongerBesideLaw, RisingBesideLaw};
ghost use Rattle.least_greens.specs.ClosingLaws.{NeedsLaw, RisingWalkLaw, RisingCycleLaw, ClosedCycleLaw, PassedPlanLaw};
ghost use Rattle.least_greens.specs.MultiplierLaws.{OutdoneLaw, BeatenLaw, NotBeatenLaw};
ghost use Rattle.least_greens.specs.Laws.{NeedLaw, OneNeedLaw, TargetOrderLaw, TransitiveLaw, TotalLaw, LesserTargetLaw, RisingNeedLaw, EnoughLaw, PlanNeedLaw};

use constraint_cycles::{exclusion_law, growth_law, tree_law};
use plan_model::{closed_tree_law, rotation_law, serving_law};

/// Targets are ordered, and what serves the greater one serves the lesser one.
pub fn target_law()
    ensures order { TargetOrderLaw }
    ensures transitive { TransitiveLaw }
    ensures total { TotalLaw }
    ensures lesser { LesserTargetLaw }
{}

/// The need of a group: there is one, it rises with the target, and a green is enough exactly where it is at least that.
pub fn need_law()
    ensures is { NeedLaw }
    ensures one { OneNeedLaw }
    ensures rising { RisingNeedLaw }
    ensures enough { EnoughLaw }
{
    serving_law();
}

/// A plan meets a target exactly where it fits and no green is below its group's need.
pub fn plan_need_law()
    ensures { PlanNeedLaw }
{
    serving_law();
}

/// To beat the least multiplier of a plan that misses a target isn't above that target.
pub fn outdone_law()
    ensures { OutdoneLaw }
{}

/// A target that a plan meets isn't above that of beating the plan's least multiplier, which the plan doesn't meet.
pub fn beaten_law()
    ensures met { BeatenLaw }
    ensures own { NotBeatenLaw }
{}

/// Beside a plan, the target of a shorter cycle is to reach the plan's least multiplier, and from the plan's own cycle on
/// to beat it: the plan meets the one where it fits, and misses the other. The target rises with the cycle.
pub fn beside_law()
    ensures shorter { ShorterBesideLaw }
    ensures longer { LongerBesideLaw }
    ensures rising { RisingBesideLaw }
{}

/// The needs of all groups are each group's need.
pub fn needs_law()
    ensures { NeedsLaw }
{}

/// What closes an order, or a cycle, for a target closes it for every greater one.
pub fn rising_law()
    ensures walk { RisingWalkLaw }
    ensures cycle { RisingCycleLaw }
{
    growth_law();
    tree_law();
}

/// Where a tree closes a cycle for a target, no plan of that cycle meets it.
pub fn closed_cycle_law()
    ensures { ClosedCycleLaw }
{
    rotation_law();
    plan_need_law();
    closed_tree_law();
}

/// A plan that meets an order misses each target for which a walk closes the order, and to beat its least multiplier
/// isn't above that target.
pub fn passed_plan_law()
    ensures { PassedPlanLaw }
{
    plan_need_law();
    growth_law();
    exclusion_law();
}

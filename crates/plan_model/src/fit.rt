ghost use Rattle.std.specs.Prelude.{◌↔◌, IsOk};
ghost use Rattle.plan_model.specs.Fits.{HasEachGroup, Fits};
ghost use Rattle.plan_model.specs.FirstFault.{FitsOrFirstFault};
ghost use Rattle.plan_model.specs.Plan.{plan_of};

use crate::clash::first_clash;
use crate::fault::PlanFault;
use crate::links::first_broken_link;
use crate::plan::Plan;
use crate::range::{first_late_start, first_long_green, first_short_green, is_within_limits};
use junction_model::Junction;

/// Whether the plan fits the junction, or the first fault. Each kind of fault is tested over all
/// groups, or links, before the next, in the order of `PlanFault`'s variants.
pub fn fits(junction: &Junction, plan: &Plan) -> Result<(), PlanFault>
    requires { HasEachGroup junction.now (plan_of plan.now) }
    ensures exactly { IsOk result ↔ Fits junction.now (plan_of plan.now) }
    ensures answer { FitsOrFirstFault junction.now (plan_of plan.now) result }
{
    if !is_within_limits(junction, plan) {
        return Err(PlanFault::CycleLimit);
    }
    if let Some(i) = first_late_start(junction, plan) {
        return Err(PlanFault::StartRange(i));
    }
    if let Some(i) = first_short_green(junction, plan) {
        return Err(PlanFault::MinGreen(i));
    }
    if let Some((i, j, second)) = first_clash(junction, plan) {
        return Err(PlanFault::Clash(i, j, second));
    }
    if let Some(i) = first_long_green(junction, plan) {
        return Err(PlanFault::MaxGreen(i));
    }
    if let Some(k) = first_broken_link(junction, plan) {
        return Err(PlanFault::Link(k));
    }
    Ok(())
}

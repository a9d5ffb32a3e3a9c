ghost use Rattle.std.specs.Prelude.{◌↔◌, IsTrue};
ghost use Rattle.plan_model.specs.Fits.{HasEachGroup, IsWithinLimits};
ghost use Rattle.plan_model.specs.FirstFault.{FirstGroupOrNone, StartsLate, IsGreenShort, IsGreenLong};
ghost use Rattle.plan_model.specs.Plan.{plan_of};

use crate::plan::Plan;
use junction_model::Junction;

pub fn is_within_limits(junction: &Junction, plan: &Plan) -> bool
    ensures { IsTrue result ↔ IsWithinLimits junction.now (plan_of plan.now) }
{
    junction.least_cycle() <= plan.cycle() && plan.cycle() <= junction.greatest_cycle()
}

pub fn first_late_start(junction: &Junction, plan: &Plan) -> Option<u32>
    requires { HasEachGroup junction.now (plan_of plan.now) }
    ensures { FirstGroupOrNone junction.now (StartsLate (plan_of plan.now)) result }
{
    for i in 0..junction.groups().len() {
        if plan.cycle() <= plan.starts()[i] {
            return Some(i as u32);
        }
    }
    None
}

pub fn first_short_green(junction: &Junction, plan: &Plan) -> Option<u32>
    requires { HasEachGroup junction.now (plan_of plan.now) }
    ensures { FirstGroupOrNone junction.now (IsGreenShort junction.now (plan_of plan.now)) result }
{
    for i in 0..junction.groups().len() {
        if plan.greens()[i] < junction.groups()[i].times.min_green {
            return Some(i as u32);
        }
    }
    None
}

pub fn first_long_green(junction: &Junction, plan: &Plan) -> Option<u32>
    requires { HasEachGroup junction.now (plan_of plan.now) }
    ensures { FirstGroupOrNone junction.now (IsGreenLong junction.now (plan_of plan.now)) result }
{
    for i in 0..junction.groups().len() {
        if junction.groups()[i].times.max_green < plan.greens()[i] {
            return Some(i as u32);
        }
    }
    None
}

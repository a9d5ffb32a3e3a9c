ghost use Rattle.std.specs.Prelude.{◌↔◌, ◌<◌, ◌≤◌, length, IsTrue};
ghost use Rattle.sig_base.specs.Times.{IsCycle};
ghost use Rattle.plan_model.specs.SignalPlan.{GreenAt, start_of};
ghost use Rattle.plan_model.specs.Fits.{GreenWithin};
ghost use Rattle.plan_model.specs.Plan.{plan_of};

use crate::plan::Plan;

/// Whether the group is green at the second, counted from 0.
pub fn is_green(plan: &Plan, group: usize, second: u32) -> bool
    requires start { group < length (plan_of plan.now).starts }
    requires green { group < length (plan_of plan.now).greens }
    requires early { start_of (plan_of plan.now) group < (plan_of plan.now).cycle }
    requires cycle { IsCycle (plan_of plan.now).cycle }
    requires second { second ≤ 1000 }
    ensures { IsTrue result ↔ GreenAt (plan_of plan.now) group second }
{
    (second + plan.cycle() - plan.starts()[group]) % plan.cycle() < plan.greens()[group]
}

/// Whether the group is green at the second or at most the wait later.
pub fn is_green_within(plan: &Plan, group: usize, wait: u32, second: u32) -> bool
    requires start { group < length (plan_of plan.now).starts }
    requires green { group < length (plan_of plan.now).greens }
    requires early { start_of (plan_of plan.now) group < (plan_of plan.now).cycle }
    requires cycle { IsCycle (plan_of plan.now).cycle }
    requires wait { wait ≤ 60 }
    requires second { second < 300 }
    ensures { IsTrue result ↔ GreenWithin (plan_of plan.now) group wait second }
{
    for later in 0..wait + 1 {
        if is_green(plan, group, second + later) {
            return true;
        }
    }
    false
}

ghost use Rattle.std.specs.Prelude.{◌≡◌, ◌+◌, ◌≤◌, ◌<◌, Some, slice_get};
ghost use Rattle.junction_model.specs.Rules.{IsGroup};
ghost use Rattle.plan_model.specs.SignalPlan.{green_of};
ghost use Rattle.plan_model.specs.Fits.{group_count};
ghost use Rattle.plan_model.specs.Least.{IsEffectiveAt};
ghost use Rattle.plan_model.specs.FittedPlan.{junction_of, fitted_plan_of};

use crate::fitted_plan::FittedPlan;
use crate::laws::green_below_cycle_law;
use flow_model::effective;
use junction_model::Group;

fn group_at<'j>(plan: &FittedPlan<'j>, group: usize) -> &'j Group
    requires { group < group_count (junction_of plan.now) }
    ensures value { slice_get (junction_of plan.now).groups group ≡ Some result.now }
    ensures rules { IsGroup result.now }
    ensures long { result.now.times.min_green ≤ green_of (fitted_plan_of plan.now) group }
    ensures amber { green_of (fitted_plan_of plan.now) group + result.now.times.amber
        < (fitted_plan_of plan.now).cycle }
{
    green_below_cycle_law();
    let _ = plan.plan();
    plan.junction().rules();
    &plan.junction().groups()[group]
}

fn green_at(plan: &FittedPlan, group: usize) -> u32
    requires { group < group_count (junction_of plan.now) }
    ensures value { result ≡ green_of (fitted_plan_of plan.now) group }
    ensures most { result ≤ 300 }
{
    plan.junction().rules();
    plan.plan().greens()[group]
}

/// The group's effective green in seconds: at most the cycle, since an end gain lies in the amber.
pub fn effective_green_of(plan: &FittedPlan, group: usize) -> u32
    requires { group < group_count (junction_of plan.now) }
    ensures value { IsEffectiveAt (junction_of plan.now) (fitted_plan_of plan.now) group result }
    ensures some { 1 ≤ result }
    ensures most { result ≤ 1000 }
    ensures within { result ≤ (fitted_plan_of plan.now).cycle }
{
    effective(&group_at(plan, group).times, green_at(plan, group))
}

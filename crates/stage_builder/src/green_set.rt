ghost use Rattle.std.specs.Prelude.{◌+◌, ◌<◌, ◌≤◌};
ghost use Rattle.plan_model.specs.Fits.{group_count};
ghost use Rattle.plan_model.specs.FittedPlan.{junction_of, fitted_plan_of};
ghost use Rattle.stage_builder.specs.Stages.{IsGreenSet};
ghost use Rattle.stage_builder.specs.SoFar.{IsGreenSetBelow};

use plan_model::{FittedPlan, is_green};

/// The set with one group more, where that is green.
fn with_group(plan: &FittedPlan, second: u32, group: usize, set: u16) -> u16
    requires group { group < group_count (junction_of plan.now) }
    requires second { second ≤ 1000 }
    requires below { IsGreenSetBelow (fitted_plan_of plan.now) group second set }
    ensures { IsGreenSetBelow (fitted_plan_of plan.now) (group + 1) second result }
{
    plan.junction().rules();
    if is_green(plan.plan(), group, second) {
        set | (1 << group)
    } else {
        set
    }
}

/// The groups that are green at the second.
pub fn set_at(plan: &FittedPlan, second: u32) -> u16
    requires { second ≤ 1000 }
    ensures { IsGreenSet (fitted_plan_of plan.now) second result }
{
    let mut set = 0u16;
    for group in 0..plan.junction().groups().len() {
        set = with_group(plan, second, group, set);
    }
    let _ = plan.plan();
    set
}

ghost use Rattle.std.specs.Prelude.{◌≡◌, ◌+◌, ◌-◌, ◌<◌, IfOk};
ghost use Rattle.plan_model.specs.FittedPlan.{fitted_plan_of};
ghost use Rattle.stage_builder.specs.Stages.{IsGreenSet, AreStages};
ghost use Rattle.stage_builder.specs.SoFar.{IsRun, IsStageFromOrNone};

use crate::green_set::set_at;
use crate::stage::Stage;
use crate::stage_list::StageList;
use plan_model::FittedPlan;
use sig_base::NoMemory;
use std::alloc::Global;

/// The groups that are green a second before, round the cycle.
fn set_before(plan: &FittedPlan, first: u32) -> u16
    requires { first < (fitted_plan_of plan.now).cycle }
    ensures { IsGreenSet (fitted_plan_of plan.now)
        (first + (fitted_plan_of plan.now).cycle - 1) result }
{
    plan.junction().rules();
    set_at(plan, first + plan.plan().cycle() - 1)
}

/// For how many seconds from `first` on the set is that of the green groups.
fn run_length(plan: &FittedPlan, first: u32, set: u16) -> u32
    requires first { first < (fitted_plan_of plan.now).cycle }
    requires before { ¬ IsGreenSet (fitted_plan_of plan.now)
        (first + (fitted_plan_of plan.now).cycle - 1) set }
    ensures { IsRun (fitted_plan_of plan.now) first set result }
{
    plan.junction().rules();
    for seconds in 0..plan.plan().cycle() {
        if set_at(plan, first + seconds) != set {
            return seconds;
        }
    }
    unreachable!()
}

/// The stage whose first second this is; `None` exactly where no stage begins.
fn stage_from(plan: &FittedPlan, first: u32) -> Option<Stage>
    requires { first < (fitted_plan_of plan.now).cycle }
    ensures { IsStageFromOrNone (fitted_plan_of plan.now) first result }
{
    plan.junction().rules();
    let groups = set_at(plan, first);
    if groups == 0 {
        return None;
    }
    if set_before(plan, first) == groups {
        return None;
    }
    let seconds = run_length(plan, first, groups);
    Some(Stage {
        first,
        seconds,
        groups,
    })
}

/// The stages of the plan: the longest runs of seconds, round the cycle, with one and the same set of
/// green groups that isn't empty, by rising first second.
pub fn stages(alloc: Global, plan: &FittedPlan) -> Result<StageList, NoMemory>
    ensures { IfOk result (λ list. AreStages (fitted_plan_of plan.now) list) }
{
    plan.junction().rules();
    let mut found = StageList::new(alloc);
    for first in 0..plan.plan().cycle() {
        let Some(stage) = stage_from(plan, first) else {
            continue;
        };
        found.push(stage)?;
    }
    Ok(found)
}

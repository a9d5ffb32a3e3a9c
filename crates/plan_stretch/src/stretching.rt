ghost use Rattle.std.specs.Prelude.{◌≡◌, ◌<◌};
ghost use Rattle.plan_model.specs.Fits.{group_count};
ghost use Rattle.plan_model.specs.Plan.{plan_of};
ghost use Rattle.plan_model.specs.FittedPlan.{junction_of, fitted_plan_of};
ghost use Rattle.plan_stretch.specs.Stretch.{IsLongestGreen, IsStretched, IsStretchOf};
ghost use Rattle.plan_stretch.specs.StretchLaw.{IsNoWorse};
ghost use Rattle.plan_stretch.specs.RoomBelow.{AreLongestGreens};

use crate::laws::stretch_law;
use crate::room::least_room;
use plan_model::{FittedPlan, Plan};

/// The longest green of group `i` that the starts and its maximum allow, in seconds.
fn longest_green(plan: &FittedPlan, i: usize) -> u32
    requires { i < group_count (junction_of plan.now) }
    ensures { IsLongestGreen (junction_of plan.now) (fitted_plan_of plan.now) i result }
{
    let most = plan.junction().groups()[i].times.max_green;
    most.min(least_room(plan, i))
}

fn longest_greens(plan: &FittedPlan) -> [u32; 16]
    ensures { AreLongestGreens (junction_of plan.now) (fitted_plan_of plan.now)
        (group_count (junction_of plan.now)) result }
{
    plan.junction().rules();
    let mut greens = [0u32; 16];
    for i in 0..plan.junction().groups().len() {
        greens[i] = longest_green(plan, i);
    }
    greens
}

fn stretched_plan(plan: &FittedPlan) -> Plan
    ensures { IsStretchOf (junction_of plan.now) (fitted_plan_of plan.now) (plan_of result) }
{
    plan.junction().rules();
    let greens = longest_greens(plan);
    let old = plan.plan();
    match Plan::new(old.cycle(), old.starts(), &greens[..old.starts().len()]) {
        Some(stretched) => stretched,
        None => unreachable!(),
    }
}

/// The plan with the longest greens for its starts: each lasts up to the intergreen before the first
/// next start of a conflicting group, but no longer than the group's maximum. Cycle and starts stay,
/// so gaps and links do; no green is shorter, and the plan meets what it met.
pub fn stretch<'j>(plan: FittedPlan<'j>) -> FittedPlan<'j>
    ensures junction { junction_of result ≡ junction_of plan.entry }
    ensures longest { IsStretchOf (junction_of plan.entry)
        (fitted_plan_of plan.entry) (fitted_plan_of result) }
    ensures stretched { IsStretched (junction_of plan.entry) (fitted_plan_of result) }
    ensures no_worse { IsNoWorse (junction_of plan.entry)
        (fitted_plan_of plan.entry) (fitted_plan_of result) }
{
    stretch_law();
    plan.junction().rules();
    FittedPlan::by_law(plan.junction(), stretched_plan(&plan))
}

ghost use Rattle.std.specs.Prelude.{◌≡◌, ◌+◌, ◌%◌, ◌<◌, length, All};
ghost use Rattle.sig_base.specs.Times.{IsCycle};
ghost use Rattle.plan_model.specs.Plan.{plan_of};
ghost use Rattle.plan_model.specs.FittedPlan.{junction_of, fitted_plan_of, IsFittedAsGood};
ghost use Rattle.plan_model.specs.Rotation.{rotated};

use crate::fitted_plan::FittedPlan;
use crate::laws::rotation_law;
use crate::plan::Plan;

/// The second `by` seconds after the start, round the cycle.
fn later(start: u32, by: u32, cycle: u32) -> u32
    requires start { start < cycle }
    requires cycle { IsCycle cycle }
    ensures { result ≡ (start + by) % cycle }
{
    (start + by % cycle) % cycle
}

fn rotated_plan(plan: &Plan, by: u32) -> Plan
    requires early { All (λ start. start < (plan_of plan.now).cycle) (plan_of plan.now).starts }
    requires cycle { IsCycle (plan_of plan.now).cycle }
    requires each { length (plan_of plan.now).greens ≡ length (plan_of plan.now).starts }
    ensures { plan_of result ≡ rotated by (plan_of plan.now) }
{
    let count = plan.starts().len();
    let mut starts = [0u32; 16];
    for i in 0..count {
        starts[i] = later(plan.starts()[i], by, plan.cycle());
    }
    match Plan::new(plan.cycle(), &starts[..count], plan.greens()) {
        Some(rotated) => rotated,
        None => unreachable!(),
    }
}

/// The plan whose starts all come `by` seconds later, round the cycle: the greens and the gaps stay, and it meets what
/// the plan met.
pub fn rotate<'j>(plan: FittedPlan<'j>, by: u32) -> FittedPlan<'j>
    ensures junction { junction_of result ≡ junction_of plan.entry }
    ensures rotated { fitted_plan_of result ≡ rotated by (fitted_plan_of plan.entry) }
    ensures as_good { IsFittedAsGood plan.entry result }
{
    rotation_law();
    plan.junction().rules();
    FittedPlan::by_law(plan.junction(), rotated_plan(plan.plan(), by))
}

ghost use Rattle.std.specs.Prelude.{◌≡◌, IfOk};
ghost use Rattle.plan_model.specs.FittedPlan.{junction_of};

use crate::questions::has_each_group;
use junction_model::Junction;
use plan_model::{FittedPlan, Plan};
use std::test::Fail;

/// The plan of these starts and greens, which fits.
pub fn fitted<'j>(
    junction: &'j Junction,
    cycle: u32,
    starts: &[u32],
    greens: &[u32],
) -> Result<FittedPlan<'j>, Fail>
    ensures { IfOk result (λ plan. junction_of plan ≡ junction.now) }
{
    let plan = Plan::new(cycle, starts, greens).ok_or("no plan")?;
    if !has_each_group(junction, &plan) {
        return Err(Fail::new("a plan of other groups"));
    }
    Ok(FittedPlan::new(junction, plan)?)
}

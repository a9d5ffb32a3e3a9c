ghost use Rattle.std.specs.Prelude.{◌≡◌, map, IfOk};
ghost use Rattle.serde_json.specs.Data.{object};
ghost use Rattle.serde_json.specs.View.{view};
ghost use Rattle.plan_model.specs.FittedPlan.{fitted_plan_of};
ghost use Rattle.plan_model.specs.Plan.{plan_of};
ghost use Rattle.plan_certificate.specs.Contents.{list, wholes};
ghost use Rattle.plan_certificate.specs.Text.{plan_data};
ghost use Rattle.bottleneck_lanes.specs.Critical.{members};
ghost use Rattle.bottleneck_lanes.specs.Text.{answer_members, answer_data, bottleneck_text};

use crate::answer::BottleAnswer;
use crate::plan_list::PlanList;
use constraint_cycles::Forest;
use plan_certificate::{forest_value, plan_value};
use plan_model::{FittedPlan, Plan};
use serde_json::{Map, Value};
use sig_base::{LaneSet, MOST_LANES, NoMemory};
use std::alloc::Global;

/// The version of the text.
const VERSION: u32 = 1;

fn lanes_value(alloc: Global, lanes: LaneSet) -> Result<Value, NoMemory>
    ensures { IfOk result (λ v. view v ≡ wholes (members lanes)) }
{
    let mut items = Vec::new(alloc);
    for lane in 0..MOST_LANES {
        if lanes.contains(lane) {
            items.push(Value::from(lane as u32))?;
        }
    }
    Ok(Value::Array(items))
}

fn plans_value(alloc: Global, plans: &[Plan]) -> Result<Value, NoMemory>
    ensures { IfOk result (λ v. view v ≡ list (map plan_data (map plan_of plans.now))) }
{
    let mut items = Vec::new(alloc);
    for plan in plans {
        items.push(plan_value(alloc, plan)?)?;
    }
    Ok(Value::Array(items))
}

fn members_of(
    alloc: Global,
    best: &Plan,
    budget: u64,
    lanes: LaneSet,
    plans: &[Plan],
    branches: &Forest,
    tested: Value,
) -> Result<Value, NoMemory>
    ensures { IfOk result (λ v. view v ≡ object (answer_members branches.now budget lanes
        (plan_of best.now) (map plan_of plans.now) (view tested))) }
{
    let mut map = Map::new(alloc);
    let branches = forest_value(alloc, branches)?;
    serde_json::put(&mut map, alloc, "branches", branches)?;
    serde_json::put(&mut map, alloc, "budget", Value::from(budget))?;
    let lanes = lanes_value(alloc, lanes)?;
    serde_json::put(&mut map, alloc, "lanes", lanes)?;
    let best = plan_value(alloc, best)?;
    serde_json::put(&mut map, alloc, "plan", best)?;
    let plans = plans_value(alloc, plans)?;
    serde_json::put(&mut map, alloc, "plans", plans)?;
    serde_json::put(&mut map, alloc, "tested", tested)?;
    serde_json::put(&mut map, alloc, "version", Value::from(VERSION))?;
    Ok(Value::Object(map))
}

fn answer_value(
    alloc: Global,
    best: &Plan,
    budget: u64,
    answer: &BottleAnswer,
) -> Result<Value, NoMemory>
    ensures { IfOk result (λ v. view v ≡ answer_data (plan_of best.now) budget answer.now) }
{
    match answer {
        BottleAnswer::Found(found) => members_of(
            alloc,
            best,
            budget,
            found.lanes,
            found.plans.items(),
            &found.branches,
            Value::Null,
        ),
        BottleAnswer::Stopped(lanes, lane, branches) => {
            members_of(
                alloc,
                best,
                budget,
                *lanes,
                &[],
                branches,
                Value::from(*lane),
            )
        }
    }
}

/// The compact text of an answer for this best plan and budget, without a line feed at its end.
pub fn write_bottleneck(
    alloc: Global,
    best: &FittedPlan,
    budget: u64,
    answer: &BottleAnswer,
) -> Result<Vec<u8>, NoMemory>
    ensures { IfOk result (λ bytes.
        bytes.items ≡ bottleneck_text (fitted_plan_of best.now) budget answer.now) }
{
    let value = answer_value(alloc, best.plan(), budget, answer)?;
    let text = value.to_string(alloc)?;
    Ok(text.into_bytes())
}

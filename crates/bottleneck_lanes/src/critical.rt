ghost use Rattle.std.specs.Prelude.{◌≡◌, ◌<◌, IfOk};
ghost use Rattle.junction_model.specs.Covers.{cover_of};
ghost use Rattle.plan_model.specs.AllLanes.{all_lanes};
ghost use Rattle.plan_model.specs.FittedPlan.{junction_of, fitted_plan_of};
ghost use Rattle.bottleneck_lanes.specs.Answer.{ShowsBest, IsAnswerFor, IsBottleneck, IsStopped};
ghost use Rattle.bottleneck_lanes.specs.Critical.{ClosesEach};

use crate::answer::{BottleAnswer, CriticalLanes};
use crate::arrivals::arriving_lanes;
use crate::plan_list::PlanList;
use crate::testing::{Test, test_lanes};
use crate::trimming::trimmed;
use constraint_cycles::Forest;
use junction_model::Junction;
use least_greens::{closed_cycle_law, rising_law};
use plan_model::{FittedPlan, multiplier_law, plan_multiplier};
use sig_base::{NoMemory, Ratio};
use std::alloc::Global;

/// The lanes that hold this multiple down, which no plan beats over all lanes: each lane is tested
/// once, by rising numbers.
fn critical_lanes(
    alloc: Global,
    junction: &Junction,
    multiple: Ratio,
    branches: &Forest,
    budget: u64,
) -> Result<BottleAnswer, NoMemory>
    requires { ClosesEach junction.now multiple all_lanes branches.now }
    ensures answer { IfOk result (IsAnswerFor junction.now multiple budget branches.now) }
    ensures covered { IfOk result (λ answer. IsStopped answer → budget < cover_of junction.now) }
{
    closed_cycle_law();
    junction.rules();
    let mut lanes = arriving_lanes(junction);
    let mut shown = trimmed(alloc, junction, lanes, multiple, branches)?;
    let mut plans = PlanList::new(alloc);
    for lane in 0..junction.lanes().len() {
        if !lanes.contains(lane) {
            continue;
        }
        let rest = lanes.without(lane);
        match test_lanes(alloc, junction, rest, multiple, budget)? {
            Test::Beaten(plan) => plans.push(plan)?,
            Test::Unbeaten(forest) => {
                lanes = rest;
                shown = forest;
            }
            Test::Stopped(forest) => {
                return Ok(BottleAnswer::Stopped(lanes, lane as u32, forest));
            }
        }
    }
    Ok(BottleAnswer::Found(CriticalLanes {
        lanes,
        plans,
        branches: shown,
    }))
}

/// The lanes that alone hold the multiplier of a best plan down, none of which can be left out. The
/// trees show that the plan is a best one: each closes its cycle, upwards from the least one, for
/// beating its multiplier. The lanes are tested by rising numbers, and each test may visit as many
/// nodes as the budget; a budget of the junction's `covers` is never spent.
pub fn bottleneck(
    alloc: Global,
    best: &FittedPlan,
    branches: &Forest,
    budget: u64,
) -> Result<BottleAnswer, NoMemory>
    requires { ShowsBest (junction_of best.now) (fitted_plan_of best.now) branches.now }
    ensures answer { IfOk result (IsBottleneck (junction_of best.now) (fitted_plan_of best.now)
        budget branches.now) }
    ensures covered { IfOk result (λ answer. IsStopped answer →
        budget < cover_of (junction_of best.now)) }
{
    multiplier_law();
    rising_law();
    best.junction().rules();
    let _ = best.plan();
    critical_lanes(
        alloc,
        best.junction(),
        plan_multiplier(best),
        branches,
        budget,
    )
}

//! The test of one lane.
ghost use Rattle.std.specs.Prelude.{◌≡◌, IfOk};
ghost use Rattle.least_greens.specs.NeedClosure.{IsQuestion, Answers};
ghost use Rattle.least_greens.specs.NeedOf.{need_of};
ghost use Rattle.bottleneck_lanes.specs.TestAnswer.{IsTestAnswer};

use constraint_cycles::Forest;
use cycle_orders::{CycleAnswer, Mode, search};
use junction_model::Junction;
use least_greens::{NeedClosure, NeedRule, need};
use plan_model::Plan;
use sig_base::{LaneSet, NoMemory, Ratio, Target};
use std::alloc::Global;

/// What a test finds.
#[derive(Drop)]
pub enum Test {
    /// A plan that beats the multiple over the lanes that are left.
    Beaten(Plan),
    /// None does: the tree of each cycle shows it.
    Unbeaten(Forest),
    /// The budget was spent before the last nodes were visited.
    Stopped(Forest),
}

/// The test, over a closure that answers the needs of the lanes that are left.
fn tested<F: Fn(Target, u32, usize) -> u32 + NeedClosure + Drop>(
    alloc: Global,
    junction: &Junction,
    lanes: LaneSet,
    closure: F,
    multiple: Ratio,
    budget: u64,
) -> Result<Test, NoMemory>
    requires { Answers F.accepts F.gives junction.now lanes closure }
    ensures { IfOk result (IsTestAnswer junction.now multiple budget lanes) }
{
    junction.rules();
    let rule = NeedRule::new(junction, lanes, closure);
    let mut forest = Forest::new(alloc);
    let mut left = budget;
    for cycle in junction.least_cycle()..junction.greatest_cycle() + 1 {
        match search(
            alloc,
            &rule,
            Target::Beat(multiple),
            cycle,
            &mut left,
            Mode::First,
        )? {
            CycleAnswer::Found(plan) => return Ok(Test::Beaten(*plan.plan())),
            CycleAnswer::Closed(tree, _) => forest.push(tree)?,
            CycleAnswer::Stopped(tree, _) => {
                forest.push(tree)?;
                return Ok(Test::Stopped(forest));
            }
        }
    }
    Ok(Test::Unbeaten(forest))
}

/// Searches all cycles, upwards, for a plan that beats the multiple over the lanes, with the budget
/// for itself.
pub fn test_lanes(
    alloc: Global,
    junction: &Junction,
    lanes: LaneSet,
    multiple: Ratio,
    budget: u64,
) -> Result<Test, NoMemory>
    ensures { IfOk result (IsTestAnswer junction.now multiple budget lanes) }
{
    tested(
        alloc,
        junction,
        lanes,
        |target: Target, cycle: u32, group: usize| -> u32
            requires { IsQuestion junction.now target cycle group }
            ensures { result ≡ need_of junction.entry.now lanes target cycle group }
        { need(junction, lanes, target, cycle, group) },
        multiple,
        budget,
    )
}

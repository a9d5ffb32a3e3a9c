//! The given trees, made lean.
ghost use Rattle.std.specs.Prelude.{◌≡◌, IfOk};
ghost use Rattle.least_greens.specs.NeedClosure.{IsQuestion, Answers};
ghost use Rattle.least_greens.specs.NeedOf.{need_of};
ghost use Rattle.plan_model.specs.AllLanes.{all_lanes};
ghost use Rattle.bottleneck_lanes.specs.Answer.{AreTrimmed};
ghost use Rattle.bottleneck_lanes.specs.Critical.{ClosesEach, AreLean, HasEachArrival};

use constraint_cycles::Forest;
use cycle_orders::trim;
use junction_model::Junction;
use least_greens::{NeedClosure, NeedRule, need};
use sig_base::{LaneSet, NoMemory, Ratio, Target};
use std::alloc::Global;

/// The trees of all cycles, each trimmed for beating the multiple over the lanes of the closure.
fn trim_each<F: Fn(Target, u32, usize) -> u32 + NeedClosure + Drop>(
    alloc: Global,
    junction: &Junction,
    lanes: LaneSet,
    closure: F,
    multiple: Ratio,
    given: &Forest,
) -> Result<Forest, NoMemory>
    requires answers { Answers F.accepts F.gives junction.now lanes closure }
    requires closes { ClosesEach junction.now multiple lanes given.now }
    ensures closes { IfOk result (ClosesEach junction.now multiple lanes) }
    ensures lean { IfOk result (AreLean junction.now multiple lanes) }
    ensures trimmed { IfOk result (AreTrimmed junction.now multiple lanes given.now) }
{
    junction.rules();
    let rule = NeedRule::new(junction, lanes, closure);
    let least_cycle = junction.least_cycle();
    let trees = given.items();
    let mut trimmed = Forest::new(alloc);
    for number in 0..trees.len() {
        let cycle = least_cycle + number as u32;
        let tree = trim(alloc, &rule, &trees[number], Target::Beat(multiple), cycle)?;
        trimmed.push(tree)?;
    }
    Ok(trimmed)
}

/// The trees, which close their cycles for beating the multiple over all lanes, trimmed for beating
/// it over those on which something arrives: these ask for the same greens.
pub fn trimmed(
    alloc: Global,
    junction: &Junction,
    lanes: LaneSet,
    multiple: Ratio,
    given: &Forest,
) -> Result<Forest, NoMemory>
    requires each { HasEachArrival junction.now lanes }
    requires closes { ClosesEach junction.now multiple all_lanes given.now }
    ensures closes { IfOk result (ClosesEach junction.now multiple lanes) }
    ensures lean { IfOk result (AreLean junction.now multiple lanes) }
    ensures trimmed { IfOk result (AreTrimmed junction.now multiple lanes given.now) }
{
    junction.rules();
    trim_each(
        alloc,
        junction,
        lanes,
        |target: Target, cycle: u32, group: usize| -> u32
            requires { IsQuestion junction.now target cycle group }
            ensures { result ≡ need_of junction.entry.now lanes target cycle group }
        { need(junction, lanes, target, cycle, group) },
        multiple,
        given,
    )
}

ghost use Rattle.std.specs.Prelude.{◌≡◌, ◌≤◌, IfOk};
ghost use Rattle.sig_base.specs.declared.ratio.Ratio.{Ratio};
ghost use Rattle.least_greens.specs.ForTarget.{target_beside};
ghost use Rattle.least_greens.specs.NeedRule.{rule_junction, rule_lanes};
ghost use Rattle.plan_model.specs.AllLanes.{all_lanes};
ghost use Rattle.plan_model.specs.FittedPlan.{fitted_plan_of};
ghost use Rattle.cycle_orders.specs.Forest.{IsClosedBeside, IsGreatest, visited_in};

use constraint_cycles::Forest;
use cycle_orders::trim;
use least_greens::{NeedClosure, NeedRule};
use plan_model::FittedPlan;
use sig_base::{NoMemory, Ratio, Target};
use std::alloc::Global;

/// The target of a cycle's tree beside a plan of this cycle and multiplier.
fn target(plan_cycle: u32, multiplier: Ratio, cycle: u32) -> Target
    ensures { result ≡ target_beside plan_cycle multiplier cycle }
{
    if cycle < plan_cycle {
        Target::Reach(multiplier)
    } else {
        Target::Beat(multiplier)
    }
}

/// The trees of all cycles, each trimmed for its target beside the best plan: they were made for lesser ones.
pub fn trim_beside<'j, F: Fn(Target, u32, usize) -> u32 + NeedClosure>(
    alloc: Global,
    rule: &NeedRule<'j, F>,
    forest: &Forest,
    plan: &FittedPlan<'j>,
    multiplier: Ratio,
) -> Result<Forest, NoMemory>
    requires lanes { rule_lanes rule.now ≡ all_lanes }
    requires closed { (least : Ratio) × IsClosedBeside (rule_junction rule.now) least
        (fitted_plan_of plan.now) multiplier forest.now }
    ensures no_more { IfOk result (λ trimmed. visited_in trimmed ≤ visited_in forest.now) }
    ensures greatest { IfOk result (λ trimmed. (least : Ratio) →
        IsClosedBeside (rule_junction rule.now) least
        (fitted_plan_of plan.now) multiplier forest.now →
        IsGreatest (rule_junction rule.now) least (fitted_plan_of plan.now) trimmed) }
{
    rule.junction().rules();
    let least_cycle = rule.junction().least_cycle();
    let plan_cycle = plan.plan().cycle();
    let trees = forest.items();
    let mut trimmed = Forest::new(alloc);
    for number in 0..trees.len() {
        let cycle = least_cycle + number as u32;
        let target = target(plan_cycle, multiplier, cycle);
        let tree = trim(alloc, rule, &trees[number], target, cycle)?;
        trimmed.push(tree)?;
    }
    Ok(trimmed)
}

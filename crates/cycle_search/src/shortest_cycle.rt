//! Cycles are taken from the least one upwards, and each is searched for a plan that meets the multiple: the first that is
//! found is one of the shortest cycle, since the tree of each cycle before shows that it has none. That a longer cycle
//! serves doesn't follow from that a shorter one does, so no cycle can be skipped. One search a cycle, with what is left of
//! the budget.
ghost use Rattle.std.specs.Prelude.{◌≡◌, ◌<◌, ◌↔◌, None, IfOk, IfSome};
ghost use Rattle.sig_base.specs.Ratio.{fraction_of};
ghost use Rattle.junction_model.specs.Covers.{cover_of};
ghost use Rattle.least_greens.specs.NeedClosure.{IsQuestion, Answers};
ghost use Rattle.least_greens.specs.NeedOf.{need_of};
ghost use Rattle.plan_model.specs.AllLanes.{all_lanes};
ghost use Rattle.plan_model.specs.Claims.{IsCycleOptimal, IsInfeasible};
ghost use Rattle.cycle_orders.specs.Forest.{IsShortest, IsExhausted, IsStoppedAt, visited_in};
ghost use Rattle.cycle_orders.specs.JunctionAnswer.{IfOptimal, IfInfeasible, IfStopped, IsNoPlan, IsStop, IsPlanOf, IsWithinBudget, CarriesNoPlan, carried_by};

use constraint_cycles::Forest;
use cycle_orders::{Answer, CycleAnswer, Mode, joined_law, search};
use junction_model::Junction;
use least_greens::{NeedClosure, NeedRule, need};
use plan_model::{ALL_LANES, all_lanes_law};
use sig_base::{NoMemory, Ratio, Target};
use std::alloc::Global;

/// The search, over a closure that answers the needs of all lanes.
fn first<'j, F: Fn(Target, u32, usize) -> u32 + NeedClosure + Drop>(
    alloc: Global,
    junction: &'j Junction,
    closure: F,
    least: Ratio,
    budget: u64,
) -> Result<Answer<'j>, NoMemory>
    requires { Answers F.accepts F.gives junction.now all_lanes closure }
    ensures optimal { IfOk result (λ answer. IfOptimal answer
        (λ p forest. IsCycleOptimal junction.now (fraction_of least) p)) }
    ensures shortest { IfOk result (λ answer. IfOptimal answer (IsShortest junction.now least)) }
    ensures infeasible { IfOk result (λ answer. IsNoPlan answer ↔
        (IsInfeasible junction.now (fraction_of least) × ¬ IsStop answer)) }
    ensures exhausted { IfOk result (λ answer. IfInfeasible answer
        (IsExhausted junction.now least)) }
    ensures stopped { IfOk result (λ answer. IfStopped answer
        (IsStoppedAt junction.now least budget)) }
    ensures without { IfOk result CarriesNoPlan }
    ensures covered { IfOk result (λ answer. IsStop answer → budget < cover_of junction.now) }
    ensures within { IfOk result (IsWithinBudget budget) }
    ensures found_within { IfOk result (λ answer. IfOptimal answer
        (λ p forest. visited_in forest < budget)) }
    ensures plan { IfOk result (λ answer. IfSome (carried_by answer)
        (IsPlanOf junction.now least)) }
{
    joined_law();
    all_lanes_law();
    junction.rules();
    let rule = NeedRule::new(junction, ALL_LANES, closure);
    let mut forest = Forest::new(alloc);
    let mut left = budget;
    for cycle in junction.least_cycle()..junction.greatest_cycle() + 1 {
        match search(
            alloc,
            &rule,
            Target::Reach(least),
            cycle,
            &mut left,
            Mode::First,
        )? {
            CycleAnswer::Found(plan) => return Ok(Answer::Optimal(plan, forest)),
            CycleAnswer::Closed(tree, _) => forest.push(tree)?,
            CycleAnswer::Stopped(tree, _) => {
                forest.push(tree)?;
                return Ok(Answer::Stopped(None, forest));
            }
        }
    }
    Ok(Answer::Infeasible(forest))
}

/// A plan that meets the least multiple, of the shortest cycle at which one does; `Infeasible` where none does, `Stopped`
/// where as many nodes as the budget were visited and one is left. The plan has group 0 at second 0.
pub fn shortest<'j>(
    alloc: Global,
    junction: &'j Junction,
    least: Ratio,
    budget: u64,
) -> Result<Answer<'j>, NoMemory>
    ensures optimal { IfOk result (λ answer. IfOptimal answer
        (λ p forest. IsCycleOptimal junction.now (fraction_of least) p)) }
    ensures shortest { IfOk result (λ answer. IfOptimal answer (IsShortest junction.now least)) }
    ensures infeasible { IfOk result (λ answer. IsNoPlan answer ↔
        (IsInfeasible junction.now (fraction_of least) × ¬ IsStop answer)) }
    ensures exhausted { IfOk result (λ answer. IfInfeasible answer
        (IsExhausted junction.now least)) }
    ensures stopped { IfOk result (λ answer. IfStopped answer
        (IsStoppedAt junction.now least budget)) }
    ensures without { IfOk result CarriesNoPlan }
    ensures covered { IfOk result (λ answer. IsStop answer → budget < cover_of junction.now) }
    ensures within { IfOk result (IsWithinBudget budget) }
    ensures found_within { IfOk result (λ answer. IfOptimal answer
        (λ p forest. visited_in forest < budget)) }
    ensures plan { IfOk result (λ answer. IfSome (carried_by answer)
        (IsPlanOf junction.now least)) }
{
    first(
        alloc,
        junction,
        |target: Target, cycle: u32, group: usize| -> u32
            requires { IsQuestion junction.now target cycle group }
            ensures { result ≡ need_of junction.entry.now all_lanes target cycle group }
        { need(junction, ALL_LANES, target, cycle, group) },
        least,
        budget,
    )
}

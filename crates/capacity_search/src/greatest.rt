//! Branch and bound over the cycles, from the least one upwards: each is asked for its best plan that beats the best one so
//! far, or, while there is none, for its best plan that reaches the least. So a later plan is better than the earlier ones,
//! and of two plans as good the one of the shorter cycle stays. A tree that closed its cycle for an earlier target closes
//! it for that of a later plan, since needs only rise; so in the end each cycle is closed for its target beside the best
//! plan. One search a cycle, with what is left of the budget; then each tree is trimmed for that target.
ghost use Rattle.std.specs.Prelude.{◌≡◌, ◌<◌, ◌↔◌, IfOk, IfSome};
ghost use Rattle.sig_base.specs.Ratio.{fraction_of};
ghost use Rattle.junction_model.specs.Covers.{cover_of};
ghost use Rattle.least_greens.specs.NeedClosure.{IsQuestion, Answers};
ghost use Rattle.least_greens.specs.NeedOf.{need_of};
ghost use Rattle.plan_model.specs.AllLanes.{all_lanes};
ghost use Rattle.plan_model.specs.Claims.{IsCapacityOptimal, IsInfeasible};
ghost use Rattle.cycle_orders.specs.Answer.{plan_in};
ghost use Rattle.cycle_orders.specs.Forest.{IsGreatest, IsExhausted, IsFoundAmong, IsStoppedAt};
ghost use Rattle.cycle_orders.specs.Joined.{next_target};
ghost use Rattle.cycle_orders.specs.JunctionAnswer.{IfOptimal, IfInfeasible, IfStopped, IsNoPlan, IsStop, IsPlanOf, IsWithinBudget, carried_by};

use crate::trimming::trim_beside;
use constraint_cycles::Forest;
use cycle_orders::{Answer, CycleAnswer, Mode, joined_law, search};
use junction_model::Junction;
use least_greens::{NeedClosure, NeedRule, need};
use plan_model::{ALL_LANES, FittedPlan, all_lanes_law, multiplier_law, plan_multiplier};
use sig_base::{NoMemory, Ratio, Target};
use std::alloc::Global;

/// What the next cycle is asked for.
fn asked(best: Option<FittedPlan>, multiple: Ratio) -> Target
    ensures { result ≡ next_target (plan_in best.entry) multiple }
{
    match best {
        Some(_) => Target::Beat(multiple),
        None => Target::Reach(multiple),
    }
}

/// The search, over a closure that answers the needs of all lanes.
fn greatest<'j, F: Fn(Target, u32, usize) -> u32 + NeedClosure + Drop>(
    alloc: Global,
    junction: &'j Junction,
    closure: F,
    least: Ratio,
    budget: u64,
) -> Result<Answer<'j>, NoMemory>
    requires { Answers F.accepts F.gives junction.now all_lanes closure }
    ensures optimal { IfOk result (λ answer. IfOptimal answer
        (λ p forest. IsCapacityOptimal junction.now (fraction_of least) p)) }
    ensures greatest { IfOk result (λ answer. IfOptimal answer (IsGreatest junction.now least)) }
    ensures infeasible { IfOk result (λ answer. IsNoPlan answer ↔
        (IsInfeasible junction.now (fraction_of least) × ¬ IsStop answer)) }
    ensures exhausted { IfOk result (λ answer. IfInfeasible answer
        (IsExhausted junction.now least)) }
    ensures stopped { IfOk result (λ answer. IfStopped answer
        (IsStoppedAt junction.now least budget)) }
    ensures covered { IfOk result (λ answer. IsStop answer → budget < cover_of junction.now) }
    ensures found { IfOk result (λ answer. IfStopped answer
        (λ p forest. IfSome p (IsFoundAmong junction.now forest))) }
    ensures within { IfOk result (IsWithinBudget budget) }
    ensures plan { IfOk result (λ answer. IfSome (carried_by answer)
        (IsPlanOf junction.now least)) }
{
    joined_law();
    all_lanes_law();
    multiplier_law();
    junction.rules();
    let rule = NeedRule::new(junction, ALL_LANES, closure);
    let mut forest = Forest::new(alloc);
    let mut left = budget;
    let mut best = None;
    let mut multiple = least;
    for cycle in junction.least_cycle()..junction.greatest_cycle() + 1 {
        let target = asked(best, multiple);
        match search(alloc, &rule, target, cycle, &mut left, Mode::Best)? {
            CycleAnswer::Closed(tree, found) => {
                if let Some(plan) = found {
                    multiple = plan_multiplier(&plan);
                    best = found;
                }
                forest.push(tree)?;
            }
            CycleAnswer::Stopped(tree, found) => {
                forest.push(tree)?;
                return Ok(Answer::Stopped(found.or(best), forest));
            }
            CycleAnswer::Found(_) => unreachable!(),
        }
    }
    match best {
        Some(plan) => {
            let trimmed = trim_beside(alloc, &rule, &forest, &plan, multiple)?;
            Ok(Answer::Optimal(plan, trimmed))
        }
        None => Ok(Answer::Infeasible(forest)),
    }
}

/// A plan of the greatest multiplier among all plans that fit, of any cycle, and of these one of the shortest cycle;
/// `Infeasible` where none meets the least multiple, `Stopped` where as many nodes as the budget were visited and one is
/// left; its plan was found in the tree of its cycle. The plan has group 0 at second 0. The trees of the best plan are
/// trimmed, those of the other answers aren't.
pub fn capacity<'j>(
    alloc: Global,
    junction: &'j Junction,
    least: Ratio,
    budget: u64,
) -> Result<Answer<'j>, NoMemory>
    ensures optimal { IfOk result (λ answer. IfOptimal answer
        (λ p forest. IsCapacityOptimal junction.now (fraction_of least) p)) }
    ensures greatest { IfOk result (λ answer. IfOptimal answer (IsGreatest junction.now least)) }
    ensures infeasible { IfOk result (λ answer. IsNoPlan answer ↔
        (IsInfeasible junction.now (fraction_of least) × ¬ IsStop answer)) }
    ensures exhausted { IfOk result (λ answer. IfInfeasible answer
        (IsExhausted junction.now least)) }
    ensures stopped { IfOk result (λ answer. IfStopped answer
        (IsStoppedAt junction.now least budget)) }
    ensures covered { IfOk result (λ answer. IsStop answer → budget < cover_of junction.now) }
    ensures found { IfOk result (λ answer. IfStopped answer
        (λ p forest. IfSome p (IsFoundAmong junction.now forest))) }
    ensures within { IfOk result (IsWithinBudget budget) }
    ensures plan { IfOk result (λ answer. IfSome (carried_by answer)
        (IsPlanOf junction.now least)) }
{
    greatest(
        alloc,
        junction,
        |target: Target, cycle: u32, group: usize| -> u32
            requires { IsQuestion junction.now target cycle group }
            ensures { result ≡ need_of junction.entry.now all_lanes target cycle group }
        { need(junction, ALL_LANES, target, cycle, group) },
        least,
        budget,
    )
}

ghost use Rattle.std.specs.Prelude.{ℕ, ◌≡◌, ◌≤◌, IfOk};
ghost use Rattle.sig_base.specs.Times.{IsCycle};
ghost use Rattle.least_greens.specs.NeedClosure.{IsQuestion, Answers};
ghost use Rattle.least_greens.specs.NeedOf.{need_of};
ghost use Rattle.least_greens.specs.NeedRule.{rule_junction, rule_lanes};
ghost use Rattle.cycle_orders.specs.Answer.{IsSearchAnswer};
ghost use Rattle.cycle_orders.specs.Search.{search_of, IsSearchable};

use crate::answer::{CycleAnswer, Mode};
use crate::session::Session;
use junction_model::Junction;
use least_greens::{NeedClosure, NeedRule};
use sig_base::{LaneSet, NoMemory, Target};
use std::alloc::Global;

/// A session with one advance, over a rule of the closure's.
fn searched<'j, F: Fn(Target, u32, usize) -> u32 + NeedClosure + Drop>(
    alloc: Global,
    junction: &'j Junction,
    lanes: LaneSet,
    closure: F,
    target: Target,
    cycle: u32,
    budget: &mut u64,
    mode: Mode,
) -> Result<CycleAnswer<'j>, NoMemory>
    requires answers { Answers F.accepts F.gives junction.now lanes closure }
    requires searchable { IsSearchable (search_of junction.now lanes target cycle mode) }
    ensures answer { IfOk result (IsSearchAnswer
        (search_of junction.now lanes target cycle mode) budget.old budget.new) }
    ensures budget { budget.new ≤ budget.old }
{
    let rule = NeedRule::new(junction, lanes, closure);
    let mut session = Session::new(alloc, rule, target, cycle, mode)?;
    session.advance(*budget)?;
    *budget -= session.visited();
    Ok(session.finish())
}

/// Searches all orders at a cycle, in seconds, for plans that meet a target over the rule's lanes. A visited node lowers
/// the budget by 1.
pub fn search<'j, F: Fn(Target, u32, usize) -> u32 + NeedClosure>(
    alloc: Global,
    rule: &NeedRule<'j, F>,
    target: Target,
    cycle: u32,
    budget: &mut u64,
    mode: Mode,
) -> Result<CycleAnswer<'j>, NoMemory>
    requires { IsSearchable
        (search_of (rule_junction rule.now) (rule_lanes rule.now) target cycle mode) }
    ensures answer { IfOk result (IsSearchAnswer
        (search_of (rule_junction rule.now) (rule_lanes rule.now) target cycle mode)
        budget.old budget.new) }
    ensures budget { budget.new ≤ budget.old }
{
    searched(
        alloc,
        rule.junction(),
        rule.lanes(),
        |target: Target, cycle: u32, group: usize| -> u32
            requires { IsQuestion (rule_junction rule.now) target cycle group }
            ensures { result ≡ need_of (rule_junction rule.entry.now) (rule_lanes rule.entry.now)
                target cycle group }
        { rule.ask(target, cycle, group) },
        target,
        cycle,
        budget,
        mode,
    )
}

//! Searches at one cycle, whose trees and plans were worked out by hand or by another program.
mod rules;
mod sessions;

ghost use Rattle.std.specs.Prelude.{◌≡◌};
ghost use Rattle.least_greens.specs.NeedClosure.{IsQuestion, Answers};
ghost use Rattle.least_greens.specs.NeedOf.{need_of};
ghost use Rattle.plan_model.specs.AllLanes.{all_lanes};

use crate::answer_texts::{carried_text, plan_text, tree_text, visited};
use cycle_orders::Mode::{Best, First};
use cycle_orders::{CycleAnswer, Mode, search};
use junction_files::read;
use junction_model::Junction;
use least_greens::{NeedClosure, NeedRule, need};
use plan_model::{ALL_LANES, all_lanes_law, multiplier_law};
use samples::crowd::crowd;
use samples::pair::{bounded_pair, short_pair};
use samples::texts::with_cycles;
use samples::{CROSSROADS, EARLY_START, RING};
use sig_base::{Ratio, Target};
use std::alloc::Global;
use std::process::Abort;
use std::test::Fail;

/// The cycle, the mode and the budget of a search for plans that carry the flows.
type Asked = (u32, Mode, u64);

/// What it answers, and what is left of the budget.
type Row<'a> = (Asked, &'a str, u64);

/// A search for plans that carry the flows, over the rule of this closure.
fn searched<'j, F: Fn(Target, u32, usize) -> u32 + NeedClosure + Drop>(
    rt: &impl Abort,
    alloc: Global,
    junction: &'j Junction,
    closure: F,
    asked: Asked,
) -> Result<(CycleAnswer<'j>, u64), Fail>
    requires { Answers F.accepts F.gives junction.now all_lanes closure }
{
    all_lanes_law();
    multiplier_law();
    junction.rules();
    let (cycle, mode, budget) = asked;
    assert!(rt; junction.least_cycle() <= cycle && cycle <= junction.greatest_cycle());
    let rule = NeedRule::new(junction, ALL_LANES, closure);
    let flows = Ratio::new(1, 1).ok_or("no ratio")?;
    let mut left = budget;
    let answer = search(alloc, &rule, Target::Reach(flows), cycle, &mut left, mode)?;
    Ok((answer, left))
}

/// The same over the needs of all lanes.
fn found<'j>(
    rt: &impl Abort,
    alloc: Global,
    junction: &'j Junction,
    asked: Asked,
) -> Result<(CycleAnswer<'j>, u64), Fail> {
    searched(
        rt,
        alloc,
        junction,
        |target: Target, cycle: u32, group: usize| -> u32
            requires { IsQuestion junction.now target cycle group }
            ensures { result ≡ need_of junction.entry.now all_lanes target cycle group }
        { need(junction, ALL_LANES, target, cycle, group) },
        asked,
    )
}

/// How the search ended, with each node of its tree and the plan.
fn answer_text(alloc: Global, answer: &CycleAnswer) -> Result<String, Fail> {
    let (word, tree, plan) = match answer {
        CycleAnswer::Closed(tree, plan) => (
            "closed",
            tree_text(alloc, tree)?,
            carried_text(alloc, plan)?,
        ),
        CycleAnswer::Found(plan) => ("found", String::new(alloc), plan_text(alloc, plan)?),
        CycleAnswer::Stopped(tree, plan) => (
            "stopped",
            tree_text(alloc, tree)?,
            carried_text(alloc, plan)?,
        ),
    };
    Ok(format!(in alloc; "{word}{tree}, {plan}")?)
}

fn check(rt: &impl Abort, alloc: Global, junction: &Junction, rows: &[Row]) -> Result<(), Fail> {
    for (k, (asked, want, rest)) in rows.iter().enumerate() {
        let (answer, left) = found(rt, alloc, junction, *asked)?;
        let seen = answer_text(alloc, &answer)?;
        assert_eq!(rt; (seen.as_str(), left), (*want, *rest), "row {k}");
    }
    Ok(())
}

/// A step of the ring takes 10 + 3 seconds forth and 10 + 8 back. Three forth fill a cycle of 39, at which a green of
/// 10 serves 54/13 times the arrivals, and one of 11 would take 42. At 38 neither order serves.
#[test]
fn trees_of_a_ring(rt: HostRuntime) -> Result<(), Fail> {
    let alloc = rt.alloc();
    let text = with_cycles(alloc, RING, 30, 60)?;
    let junction = read(alloc, text.as_bytes())?;
    let plan = "cycle 39 starts [0, 13, 26] greens [10, 10, 10] multiplier 54/13";
    let found_39 = format!(in alloc; "found, {plan}")?;
    let best_39 = format!(in alloc; "closed 2 [0, 1, 2] [0, 2, 1], {plan}")?;
    let rows: [Row; 7] = [
        ((39, First, 0), "stopped null, none", 0),
        ((39, First, 1), "stopped 2 null null, none", 0),
        ((39, First, 2), found_39.as_str(), 0),
        ((39, Best, 9), best_39.as_str(), 6),
        ((38, First, 3), "closed 2 [0, 1, 2] [0, 2, 1], none", 0),
        ((38, Best, 3), "closed 2 [0, 1, 2] [0, 2, 1], none", 0),
        ((38, First, 2), "stopped 2 [0, 1, 2] null, none", 0),
    ];
    check(&rt, alloc, &junction, &rows)
}

/// With 20 seconds A serves 6/5 times its arrivals, and no longer green is allowed. 16 seconds don't serve them.
#[test]
fn longest_greens(rt: HostRuntime) -> Result<(), Fail> {
    let alloc = rt.alloc();
    let one = bounded_pair(alloc)?;
    let plan = "closed [0], cycle 60 starts [0, 25] greens [20, 20] multiplier 6/5";
    check(
        &rt,
        alloc,
        &read(alloc, one.as_bytes())?,
        &[((60, Best, 1), plan, 0)],
    )?;
    let both = short_pair(alloc)?;
    check(
        &rt,
        alloc,
        &read(alloc, both.as_bytes())?,
        &[((60, First, 1), "closed [0], none", 0)],
    )
}

/// How the search ended, how many nodes of its tree were visited, of how many, and the plan.
fn ending(alloc: Global, answer: &CycleAnswer) -> Result<String, Fail> {
    let (word, nodes, all, plan) = match answer {
        CycleAnswer::Closed(tree, plan) => (
            "closed",
            visited(tree),
            tree.items().len(),
            carried_text(alloc, plan)?,
        ),
        CycleAnswer::Found(plan) => ("found", 0, 0, plan_text(alloc, plan)?),
        CycleAnswer::Stopped(tree, plan) => (
            "stopped",
            visited(tree),
            tree.items().len(),
            carried_text(alloc, plan)?,
        ),
    };
    Ok(format!(in alloc; "{word} {nodes} of {all}, {plan}")?)
}

fn check_endings(rt: &impl Abort, alloc: Global, text: &str, rows: &[Row]) -> Result<(), Fail> {
    let junction = read(alloc, text.as_bytes())?;
    for (k, (asked, want, rest)) in rows.iter().enumerate() {
        let (answer, left) = found(rt, alloc, &junction, *asked)?;
        let seen = ending(alloc, &answer)?;
        assert_eq!(rt; (seen.as_str(), left), (*want, *rest), "row {k}");
    }
    Ok(())
}

/// At 30 seconds there and back between groups 0 and 1, or 0 and 2, takes 31: the root order closes.
#[test]
fn a_root_order_that_closes(rt: HostRuntime) -> Result<(), Fail> {
    let text = with_cycles(rt.alloc(), RING, 30, 60)?;
    check_endings(
        &rt,
        rt.alloc(),
        &text,
        &[
            ((30, First, 9), "closed 1 of 1, none", 8),
            ((30, Best, 9), "closed 1 of 1, none", 8),
        ],
    )
}

/// The pair of B and C is decided before the link. Where C starts before B, 10 seconds after A, three waits of 10, 12
/// and 12 fill a cycle of 34; where B starts before C, or the link passes the cycle's end, none of 33 or 34 serves.
/// A green of 7 serves 567/170 times the arrivals at 34; greens of 8 would take 36.
#[test]
fn a_link(rt: HostRuntime) -> Result<(), Fail> {
    let alloc = rt.alloc();
    let plan = "cycle 34 starts [0, 22, 10] greens [7, 7, 7] multiplier 567/170";
    let found_34 = format!(in alloc; "found 0 of 0, {plan}")?;
    let best_34 = format!(in alloc; "closed 7 of 7, {plan}")?;
    check_endings(
        &rt,
        alloc,
        EARLY_START,
        &[
            ((33, First, 7), "closed 7 of 7, none", 0),
            ((33, Best, 9), "closed 7 of 7, none", 2),
            ((34, First, 6), found_34.as_str(), 0),
            ((34, First, 5), "stopped 5 of 7, none", 0),
            ((34, Best, 7), best_34.as_str(), 0),
        ],
    )
}

/// Each group needs 2 seconds, so five of them one after another take 310: the pairs of the groups 0 to 4 are decided
/// first, and no others.
#[test]
fn sixteen_groups(rt: HostRuntime) -> Result<(), Fail> {
    let text = crowd(rt.alloc())?;
    check_endings(
        &rt,
        rt.alloc(),
        &text,
        &[
            ((300, First, 55), "closed 55 of 55, none", 0),
            ((300, Best, 56), "closed 55 of 55, none", 1),
            ((300, First, 54), "stopped 54 of 55, none", 0),
        ],
    )
}

/// No order of the crossroads serves at 62 seconds; some do at 63 and at 119.
#[test]
fn a_crossroads(rt: HostRuntime) -> Result<(), Fail> {
    let alloc = rt.alloc();
    let junction = read(alloc, CROSSROADS.as_bytes())?;
    for (cycle, want) in [(62, false), (63, true), (119, true)] {
        for mode in [First, Best] {
            let (answer, _) = found(&rt, alloc, &junction, (cycle, mode, 1023))?;
            let plan = match answer {
                CycleAnswer::Closed(_, plan) => plan,
                CycleAnswer::Found(plan) => Some(plan),
                CycleAnswer::Stopped(..) => return Err(Fail::new("stopped")),
            };
            assert_eq!(rt; plan.is_some(), want, "{cycle} {mode:?}");
        }
    }
    Ok(())
}

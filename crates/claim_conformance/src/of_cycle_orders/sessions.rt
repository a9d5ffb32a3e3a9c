//! Searches that are cut into several calls.
ghost use Rattle.std.specs.Prelude.{◌≡◌};
ghost use Rattle.least_greens.specs.NeedClosure.{IsQuestion, Answers};
ghost use Rattle.least_greens.specs.NeedOf.{need_of};
ghost use Rattle.plan_model.specs.AllLanes.{all_lanes};

use super::answer_text;
use cycle_orders::Mode::{Best, First};
use cycle_orders::{Mode, Session};
use junction_files::read;
use junction_model::Junction;
use least_greens::{NeedClosure, NeedRule, need};
use plan_model::{ALL_LANES, all_lanes_law, multiplier_law};
use samples::texts::with_cycles;
use samples::{CROSSROADS, RING};
use sig_base::{Ratio, Target};
use std::alloc::Global;
use std::process::Abort;
use std::test::Fail;

/// What each advance by so many nodes answers, with the number of nodes visited then, and the answer at the end.
fn stepped<F: Fn(Target, u32, usize) -> u32 + NeedClosure + Drop>(
    rt: &impl Abort,
    alloc: Global,
    junction: &Junction,
    closure: F,
    cycle: u32,
    mode: Mode,
    steps: &[u64],
) -> Result<(String, String), Fail>
    requires { Answers F.accepts F.gives junction.now all_lanes closure }
{
    all_lanes_law();
    multiplier_law();
    junction.rules();
    assert!(rt; junction.least_cycle() <= cycle && cycle <= junction.greatest_cycle());
    let rule = NeedRule::new(junction, ALL_LANES, closure);
    let flows = Ratio::new(1, 1).ok_or("no ratio")?;
    let mut session = Session::new(alloc, rule, Target::Reach(flows), cycle, mode)?;
    let mut told = String::new(alloc);
    for nodes in steps {
        let progress = session.advance(*nodes)?;
        let part = format!(in alloc; "{progress:?} {} ", session.visited())?;
        told.push_str(part.as_str())?;
    }
    let answer = answer_text(alloc, &session.finish())?;
    Ok((told, answer))
}

/// The same over the needs of all lanes.
fn cut(
    rt: &impl Abort,
    alloc: Global,
    junction: &Junction,
    cycle: u32,
    mode: Mode,
    steps: &[u64],
) -> Result<(String, String), Fail> {
    stepped(
        rt,
        alloc,
        junction,
        |target: Target, cycle: u32, group: usize| -> u32
            requires { IsQuestion junction.now target cycle group }
            ensures { result ≡ need_of junction.entry.now all_lanes target cycle group }
        { need(junction, ALL_LANES, target, cycle, group) },
        cycle,
        mode,
        steps,
    )
}

/// The cycle, the mode, the nodes of each advance, what they answer, and the answer at the end.
type Row<'a> = (u32, Mode, &'a [u64], &'a str, &'a str);

/// The trees and the plan are those of the searches at once. After the end nothing is visited.
#[test]
fn steps_in_a_ring(rt: HostRuntime) -> Result<(), Fail> {
    let alloc = rt.alloc();
    let text = with_cycles(alloc, RING, 30, 60)?;
    let junction = read(alloc, text.as_bytes())?;
    let tree = "closed 2 [0, 1, 2] [0, 2, 1], none";
    let plan = "found, cycle 39 starts [0, 13, 26] greens [10, 10, 10] multiplier 54/13";
    let rows: [Row; 4] = [
        (
            38,
            First,
            &[0, 1, 2, 5],
            "Going 0 Going 1 Ended 3 Ended 3 ",
            tree,
        ),
        (
            38,
            Best,
            &[2, 0],
            "Going 2 Going 2 ",
            "stopped 2 [0, 1, 2] null, none",
        ),
        (39, First, &[], "", "stopped null, none"),
        (39, First, &[1, 1, 7], "Going 1 Ended 2 Ended 2 ", plan),
    ];
    for (k, (cycle, mode, steps, told, end)) in rows.iter().enumerate() {
        let seen = cut(&rt, alloc, &junction, *cycle, *mode, steps)?;
        assert_eq!(rt;
            (seen.0.as_str(), seen.1.as_str()),
            (*told, *end),
            "row {k}"
        );
    }
    Ok(())
}

/// Node by node, by sevens and at once the same tree and the same plan come out.
#[test]
fn steps_over_a_crossroads(rt: HostRuntime) -> Result<(), Fail> {
    let alloc = rt.alloc();
    let junction = read(alloc, CROSSROADS.as_bytes())?;
    for (cycle, mode) in [(62, First), (63, First), (119, Best)] {
        let at_once = cut(&rt, alloc, &junction, cycle, mode, &[1023])?;
        for steps in [[1u64; 1023].as_slice(), [7u64; 147].as_slice()] {
            let seen = cut(&rt, alloc, &junction, cycle, mode, steps)?;
            assert_eq!(rt; seen.1.as_str(), at_once.1.as_str(), "{cycle} {mode:?}");
        }
    }
    Ok(())
}

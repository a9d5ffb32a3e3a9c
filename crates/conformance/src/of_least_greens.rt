ghost use Rattle.std.specs.Prelude.{◌≡◌, ◌<◌};
ghost use Rattle.sig_base.specs.Times.{IsCycle};
ghost use Rattle.plan_model.specs.Fits.{group_count};
ghost use Rattle.least_greens.specs.NeedOf.{need_of};
ghost use Rattle.least_greens.specs.NeedClosure.{IsQuestion, Answers};

use junction_files::read;
use junction_model::Junction;
use least_greens::{NeedClosure, NeedRule, need, needs};
use plan_model::ALL_LANES;
use samples::pair::{BUSY, FIRST_LANE, NO_LANES, QUIET, SATURATED, SECOND_LANE, pair};
use samples::questions::is_cycle;
use sig_base::{LaneSet, Ratio, Target};
use std::alloc::Global;
use std::cell::Cell;
use std::process::Abort;
use std::test::Fail;

/// 600 and 300 vehicles per hour arrive.
fn uneven(alloc: Global) -> Result<Junction, Fail> {
    let text = pair(alloc, (60, 60), BUSY, QUIET, (5, 5))?;
    Ok(read(alloc, text.as_bytes())?)
}

fn ratio(rt: &impl Abort, num: u64, den: u64) -> Ratio {
    Ratio::new(num, den).expect(rt, "a ratio")
}

/// The lanes, the target, the cycle, and the needs of the two groups.
type Case = (LaneSet, Target, u32, [u32; 2]);

fn check(rt: &impl Abort, junction: &Junction, cases: &[Case]) {
    for (k, (lanes, target, cycle, want)) in cases.iter().enumerate() {
        assert!(rt; is_cycle(*cycle) && junction.groups().len() == 2);
        let mut all = [0; 16];
        all[..2].copy_from_slice(want);
        assert_eq!(rt; needs(junction, *lanes, *target, *cycle), all, "case {k}");
        let second = need(junction, *lanes, *target, *cycle, 1);
        assert_eq!(rt; second, all[1], "case {k}");
    }
}

/// A green g serves 27 g / 600 times the first group's arrivals, and twice as many times the second
/// one's. A ratio of 20 asks for 444.4 seconds, of which 300 are the most, and for 222.2.
#[test]
fn needs_of_two_groups(rt: HostRuntime) -> Result<(), Fail> {
    let (beat, reach) = (ratio(&rt, 297, 200), ratio(&rt, 20, 1));
    check(
        &rt,
        &uneven(rt.alloc())?,
        &[
            (ALL_LANES, Target::Beat(beat), 60, [34, 17]),
            (ALL_LANES, Target::Reach(beat), 60, [33, 17]),
            (FIRST_LANE, Target::Beat(beat), 60, [34, 7]),
            (SECOND_LANE, Target::Beat(beat), 60, [7, 17]),
            (NO_LANES, Target::Beat(beat), 60, [7, 7]),
            (ALL_LANES, Target::Reach(reach), 60, [301, 223]),
        ],
    );
    Ok(())
}

/// The same groups with maxima of 33 seconds: the first group's need is its maximum, or one second past
/// it and so none.
#[test]
fn needs_at_a_maximum(rt: HostRuntime) -> Result<(), Fail> {
    let alloc = rt.alloc();
    let text = pair(alloc, (60, 60), BUSY, QUIET, (5, 5))?;
    let text = text.as_str().replace(alloc, "version = 1", "version = 2")?;
    let text = text
        .as_str()
        .replace(alloc, "end_gain = 0", "end_gain = 0\nmax_green = 33")?;
    let beat = ratio(&rt, 297, 200);
    check(
        &rt,
        &read(alloc, text.as_bytes())?,
        &[
            (ALL_LANES, Target::Reach(beat), 60, [33, 17]),
            (ALL_LANES, Target::Beat(beat), 60, [301, 17]),
            (SECOND_LANE, Target::Beat(beat), 60, [7, 17]),
        ],
    );
    Ok(())
}

/// Four tenths of the cycle, and the next whole second.
#[test]
fn needs_rise_with_the_cycle(rt: HostRuntime) -> Result<(), Fail> {
    let alloc = rt.alloc();
    let text = pair(alloc, (20, 22), SATURATED, SATURATED, (2, 2))?;
    let full = Target::Reach(ratio(&rt, 1, 1));
    check(
        &rt,
        &read(alloc, text.as_bytes())?,
        &[
            (ALL_LANES, full, 20, [8, 8]),
            (ALL_LANES, full, 21, [9, 9]),
            (ALL_LANES, full, 22, [9, 9]),
        ],
    );
    Ok(())
}

fn asked<F: Fn(Target, u32, usize) -> u32 + NeedClosure + Drop>(
    junction: &Junction,
    lanes: LaneSet,
    closure: F,
    target: Target,
    cycle: u32,
    group: usize,
) -> u32
    requires answers { Answers F.accepts F.gives junction.now lanes closure }
    requires cycle { IsCycle cycle }
    requires group { group < group_count junction.now }
    ensures { result ≡ need_of junction.now lanes target cycle group }
{
    NeedRule::new(junction, lanes, closure).ask(target, cycle, group)
}

/// A rule asks its closure.
#[test]
fn a_rule_that_counts(rt: HostRuntime) -> Result<(), Fail> {
    let junction = uneven(rt.alloc())?;
    assert!(rt; junction.groups().len() == 2);
    let calls = Cell::new(0u32);
    let found = asked(
        &junction,
        FIRST_LANE,
        |target: Target, cycle: u32, group: usize| -> u32
            requires { IsQuestion junction target cycle group }
            ensures { result ≡ need_of junction FIRST_LANE target cycle group }
        {
            calls.set(calls.get().saturating_add(1));
            need(&junction, FIRST_LANE, target, cycle, group)
        },
        Target::Beat(ratio(&rt, 297, 200)),
        60,
        1,
    );
    assert_eq!(rt; found, 7);
    assert!(rt; calls.get() > 0);
    Ok(())
}

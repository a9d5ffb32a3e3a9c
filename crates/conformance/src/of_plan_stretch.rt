use junction_files::read;
use junction_model::Junction;
use plan_model::{ALL_LANES, FittedPlan, multiplier};
use plan_stretch::stretch;
use samples::crossroads::{GREENS, STARTS};
use samples::pair::{COMMON, bounded_pair, pair};
use samples::plans::fitted;
use samples::{CROSSROADS, EARLY_START, PAIR};
use sig_base::Ratio;
use std::process::Abort;
use std::test::Fail;

/// The stretch of a plan that fits, which keeps its cycle and its starts.
fn stretched<'j>(
    rt: &impl Abort,
    junction: &'j Junction,
    cycle: u32,
    starts: &[u32],
    greens: &[u32],
) -> Result<FittedPlan<'j>, Fail> {
    let longer = stretch(fitted(junction, cycle, starts, greens)?);
    assert!(rt; longer.plan().cycle() == cycle);
    assert_eq!(rt; longer.plan().starts(), starts);
    Ok(longer)
}

/// The starts, and the greens as long as they can be: up to the other group's next start, less 5
/// seconds. In the third row A's next one is 30 seconds later, past the cycle's end. In the last row
/// the plan is stretched already.
type Row = ([u32; 2], [u32; 2], [u32; 2]);

const ROWS: [Row; 5] = [
    ([0, 30], [7, 7], [25, 25]),
    ([0, 38], [7, 7], [33, 17]),
    ([50, 20], [7, 9], [25, 25]),
    ([59, 12], [8, 7], [8, 42]),
    ([0, 38], [33, 17], [33, 17]),
];

#[test]
fn greens_of_two_groups(rt: HostRuntime) -> Result<(), Fail> {
    let junction = read(rt.alloc(), PAIR.as_bytes())?;
    for (starts, greens, want) in ROWS {
        let longer = stretched(&rt, &junction, 60, &starts, &greens)?;
        assert_eq!(rt; longer.plan().greens(), want.as_slice(), "{starts:?}");
    }
    Ok(())
}

/// 5 seconds have to pass after A's green, and 8 after B's: 30 - 5 and 30 - 8 are left.
#[test]
fn each_way_its_intergreen(rt: HostRuntime) -> Result<(), Fail> {
    let text = pair(rt.alloc(), (60, 60), COMMON, COMMON, (5, 8))?;
    let junction = read(rt.alloc(), text.as_bytes())?;
    let longer = stretched(&rt, &junction, 60, &[0, 30], &[7, 7])?;
    assert_eq!(rt; longer.plan().greens(), [25, 22].as_slice());
    Ok(())
}

/// A may be green for 20 seconds, though 25 are free.
#[test]
fn a_longest_green(rt: HostRuntime) -> Result<(), Fail> {
    let text = bounded_pair(rt.alloc())?;
    let junction = read(rt.alloc(), text.as_bytes())?;
    let longer = stretched(&rt, &junction, 60, &[0, 30], &[7, 7])?;
    assert_eq!(rt; longer.plan().greens(), [20, 25].as_slice());
    Ok(())
}

/// C starts 10 seconds after A, and still does. B ends 5 seconds before A starts again, and C 5 seconds before B.
#[test]
fn an_early_start(rt: HostRuntime) -> Result<(), Fail> {
    let junction = read(rt.alloc(), EARLY_START.as_bytes())?;
    let longer = stretched(&rt, &junction, 40, &[0, 23, 10], &[7, 7, 7])?;
    assert_eq!(rt; longer.plan().greens(), [18, 12, 8].as_slice());
    Ok(())
}

const LONGEST: [u32; 8] = [25, 25, 31, 30, 20, 19, 28, 17];

/// The lane N1 has the least multiplier before and after, 900 * 1800 * 24 over 1000 * 420 * 90, less
/// than which the other lanes don't have.
#[test]
fn greens_of_the_crossroads(rt: HostRuntime) -> Result<(), Fail> {
    let junction = read(rt.alloc(), CROSSROADS.as_bytes())?;
    let longer = stretched(&rt, &junction, 90, &STARTS, &GREENS)?;
    assert_eq!(rt; longer.plan().greens(), LONGEST.as_slice());
    assert_eq!(rt; multiplier(&longer, ALL_LANES), Ratio::new(57, 56));
    Ok(())
}

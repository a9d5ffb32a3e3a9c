mod maxima_and_links;

use junction_files::read;
use junction_model::Junction;
use plan_model::{ALL_LANES, FittedPlan, Plan, PlanFault, multiplier, rotate};
use samples::PAIR;
use samples::pair::{BUSY, COMMON, NO_LANES, QUIET, SATURATED, SECOND_LANE, Side, pair};
use samples::questions::has_each_group;
use sig_base::{LaneSet, Ratio};
use std::process::Abort;
use std::test::Fail;

fn fitted<'j>(
    rt: &impl Abort,
    junction: &'j Junction,
    cycle: u32,
    starts: [u32; 2],
    greens: [u32; 2],
) -> Result<FittedPlan<'j>, PlanFault> {
    let plan = Plan::new(cycle, &starts, &greens).expect(rt, "a plan");
    assert!(rt; has_each_group(junction, &plan));
    FittedPlan::new(junction, plan)
}

/// The cycle, the starts, the greens, and the first fault.
type Row = (u32, [u32; 2], [u32; 2], Option<PlanFault>);

const ROWS: [Row; 11] = [
    (60, [0, 30], [25, 25], None),
    (59, [0, 30], [25, 25], Some(PlanFault::CycleLimit)),
    (61, [0, 30], [25, 25], Some(PlanFault::CycleLimit)),
    (60, [60, 30], [25, 25], Some(PlanFault::StartRange(0))),
    (60, [59, u32::MAX], [6, 6], Some(PlanFault::StartRange(1))),
    (60, [0, 30], [6, 6], Some(PlanFault::MinGreen(0))),
    (60, [0, 0], [25, 6], Some(PlanFault::MinGreen(1))),
    (60, [1, 40], [30, 22], Some(PlanFault::Clash(0, 1, 1))),
    (60, [0, 30], [26, 25], Some(PlanFault::Clash(0, 1, 25))),
    (60, [0, 30], [25, 26], Some(PlanFault::Clash(1, 0, 55))),
    (
        60,
        [0, 30],
        [u32::MAX, 25],
        Some(PlanFault::Clash(0, 1, 25)),
    ),
];

/// The junction has the cycle 60 alone, minimum greens of 7, and intergreens of 5.
#[test]
fn plans_of_two_groups(rt: HostRuntime) -> Result<(), Fail> {
    let junction = read(rt.alloc(), PAIR.as_bytes())?;
    for (k, (cycle, starts, greens, fault)) in ROWS.iter().enumerate() {
        let found = fitted(&rt, &junction, *cycle, *starts, *greens);
        assert_eq!(rt; found.err(), *fault, "row {k}");
    }
    Ok(())
}

/// The sides and their intergreens.
type Sides = (Side, Side, u32);

const EVEN: Sides = (COMMON, COMMON, 5);

const UNEVEN: Sides = (BUSY, QUIET, 5);

const FULL: Sides = (SATURATED, SATURATED, 2);

/// The sides, the plan, the lanes, and their multiplier.
type Multiplied = (
    Sides,
    (u32, [u32; 2], [u32; 2]),
    LaneSet,
    Option<(u64, u64)>,
);

/// A lane's limit, saturation and effective green, over 1000, its arrivals and the cycle. In the third
/// row, 900 * 1800 * 17 over 1000 * 300 * 60.
const MULTIPLIED: [Multiplied; 7] = [
    (EVEN, (60, [0, 30], [25, 25]), ALL_LANES, Some((3, 2))),
    (UNEVEN, (60, [0, 38], [33, 17]), ALL_LANES, Some((297, 200))),
    (
        UNEVEN,
        (60, [0, 38], [33, 17]),
        SECOND_LANE,
        Some((153, 100)),
    ),
    (UNEVEN, (60, [0, 38], [33, 17]), NO_LANES, None),
    (EVEN, (42, [0, 21], [16, 16]), ALL_LANES, Some((48, 35))),
    (FULL, (20, [0, 10], [8, 8]), ALL_LANES, Some((1, 1))),
    (FULL, (22, [0, 11], [9, 9]), ALL_LANES, Some((45, 44))),
];

fn check_multiplier(rt: &impl Abort, plan: &FittedPlan, lanes: LaneSet, want: Option<(u64, u64)>) {
    let ratio = want.and_then(|(num, den)| Ratio::new(num, den));
    assert_eq!(rt; multiplier(plan, lanes), ratio, "{want:?}");
}

#[test]
fn multipliers(rt: HostRuntime) -> Result<(), Fail> {
    for ((a, b, intergreen), (cycle, starts, greens), lanes, want) in MULTIPLIED {
        let text = pair(rt.alloc(), (20, 60), a, b, (intergreen, intergreen))?;
        let junction = read(rt.alloc(), text.as_bytes())?;
        let plan = fitted(&rt, &junction, cycle, starts, greens).expect(&rt, "it fits");
        check_multiplier(&rt, &plan, lanes, want);
    }
    Ok(())
}

/// Both starts come so many seconds later, round the cycle of 60: the last row's are 71582788 cycles
/// and 15 seconds.
#[test]
fn rotations(rt: HostRuntime) -> Result<(), Fail> {
    let junction = read(rt.alloc(), PAIR.as_bytes())?;
    for (by, starts) in [(40, [40, 5]), (60, [0, 25]), (u32::MAX, [15, 40])] {
        let plan = fitted(&rt, &junction, 60, [0, 25], [20, 30]).expect(&rt, "it fits");
        let rotated = rotate(plan, by);
        assert_eq!(rt; rotated.plan().starts(), starts.as_slice(), "by {by}");
        assert_eq!(rt; rotated.plan().greens(), [20, 30].as_slice(), "by {by}");
        assert!(rt; rotated.plan().cycle() == 60);
    }
    Ok(())
}

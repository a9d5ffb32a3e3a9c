use junction_files::read;
use plan_stretch::stretch;
use samples::crossroads::{GREENS, STARTS};
use samples::plans::fitted;
use samples::{CROSSROADS, PAIR};
use stage_builder::{Stage, stages};
use std::process::Abort;
use std::test::Fail;

/// A first second, the seconds, and the groups.
type Row = (u32, u32, u16);

fn check(rt: &impl Abort, found: &[Stage], want: &[Row]) {
    assert!(rt; found.len() == want.len());
    for (k, (first, seconds, groups)) in want.iter().enumerate() {
        let stage = Stage {
            first: *first,
            seconds: *seconds,
            groups: *groups,
        };
        assert_eq!(rt; found.get(k), Some(&stage), "stage {k}");
    }
}

/// The starts of A, which is bit 0, and B, their greens, and the stages. In the second row A's stage
/// passes the cycle's end, and so stands last.
type Case = ([u32; 2], [u32; 2], [Row; 2]);

const CASES: [Case; 3] = [
    ([0, 30], [25, 25], [(0, 25, 1), (30, 25, 2)]),
    ([50, 20], [25, 25], [(20, 25, 2), (50, 25, 1)]),
    ([59, 12], [7, 42], [(12, 42, 2), (59, 7, 1)]),
];

#[test]
fn stages_of_two_groups(rt: HostRuntime) -> Result<(), Fail> {
    let junction = read(rt.alloc(), PAIR.as_bytes())?;
    for (starts, greens, want) in CASES {
        let plan = fitted(&junction, 60, &starts, &greens)?;
        let found = stages(rt.alloc(), &plan)?;
        check(&rt, found.items(), &want);
    }
    Ok(())
}

/// N is bit 0, then S, E, W, ER, WR, P and Q. From second 30 on, say, E, W and P are green: 4, 8 and
/// 64; P ends first.
const STAGES: [Row; 9] = [
    (0, 23, 3),
    (23, 2, 1),
    (30, 6, 76),
    (36, 24, 12),
    (60, 1, 4),
    (65, 1, 144),
    (66, 5, 176),
    (71, 2, 48),
    (73, 2, 32),
];

/// N and S end together, P lasts until second 57, and the right turns end together, after Q.
const STRETCHED: [Row; 7] = [
    (0, 25, 3),
    (30, 28, 76),
    (58, 2, 12),
    (60, 1, 4),
    (65, 1, 144),
    (66, 16, 176),
    (82, 3, 48),
];

#[test]
fn stages_before_and_after_a_stretch(rt: HostRuntime) -> Result<(), Fail> {
    let junction = read(rt.alloc(), CROSSROADS.as_bytes())?;
    let plan = fitted(&junction, 90, &STARTS, &GREENS)?;
    let before = stages(rt.alloc(), &plan)?;
    check(&rt, before.items(), &STAGES);
    let after = stages(rt.alloc(), &stretch(plan))?;
    check(&rt, after.items(), &STRETCHED);
    Ok(())
}

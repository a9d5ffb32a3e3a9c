use flow_model::{Lane, effective, lane_multiplier, saturation};
use samples::questions::is_cycle;
use sig_base::{GroupTimes, Label, Ratio};
use std::test::Fail;

/// Arrival and limit of a lane with a saturation of 1800, the effective green, the cycle, the
/// multiplier, and the degree of saturation: in the first row 900 * 1800 * 25 over 1000 * 450 * 60, and
/// 450 * 60 over 1800 * 25.
type Row = (u32, u32, u32, u32, Option<(u64, u64)>, (u64, u64));

const ROWS: [Row; 9] = [
    (450, 900, 25, 60, Some((3, 2)), (3, 5)),
    (600, 900, 33, 60, Some((297, 200)), (20, 33)),
    (300, 900, 17, 60, Some((153, 100)), (10, 17)),
    (450, 900, 16, 42, Some((48, 35)), (21, 32)),
    (450, 900, 15, 41, Some((54, 41)), (41, 60)),
    (450, 900, 15, 40, Some((27, 20)), (2, 3)),
    (720, 1000, 8, 20, Some((1, 1)), (1, 1)),
    (100, 900, 7, 34, Some((567, 170)), (17, 63)),
    (0, 900, 25, 60, None, (0, 1)),
];

#[test]
fn multipliers_and_degrees_of_saturation(rt: HostRuntime) -> Result<(), Fail> {
    for (arrival, limit, effective, cycle, multiplier, degree) in ROWS {
        assert!(rt; arrival <= 20000 && limit >= 1 && limit <= 1000);
        assert!(rt; effective >= 1 && effective <= 1000 && is_cycle(cycle));
        let lane = Lane {
            label: Label::new(b"A1").ok_or("no label")?,
            group: 0,
            arrival,
            saturation: 1800,
            limit,
        };
        let want = multiplier.and_then(|(num, den)| Ratio::new(num, den));
        assert_eq!(rt; lane_multiplier(&lane, effective, cycle), want);
        let (num, den) = degree;
        assert_eq!(rt;
            Some(saturation(&lane, effective, cycle)),
            Ratio::new(num, den)
        );
    }
    Ok(())
}

/// More may be lost than is shown: the end gain is added first.
#[test]
fn more_is_lost_than_is_shown(rt: HostRuntime) {
    let times = GroupTimes {
        min_green: 7,
        amber: 3,
        red_amber: 2,
        start_lost: 7,
        end_gain: 3,
        max_green: 300,
    };
    assert_eq!(rt; effective(&times, 5), 1);
}

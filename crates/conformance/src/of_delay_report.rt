use delay_report::{WideRatio, delay};
use flow_model::Lane;
use samples::questions::is_cycle;
use sig_base::Label;
use std::test::Fail;

/// Arrival, saturation, effective green, cycle, and the delay. In the first row 9 * 35^2 * 1800 over
/// 20 * 60 * 1350, which is 49/4, and 1620 * 450 * 60^2 over 45000 * 18000, which is 81/25. Of 750 as
/// many arrive as can leave, 45000; of 749, 44940. The last two rows are the longest green at the
/// greatest flows and a lane that is all but shut.
type Row = (u32, u32, u32, u32, Option<(u128, u128)>);

const ROWS: [Row; 9] = [
    (450, 1800, 25, 60, Some((1549, 100))),
    (0, 1800, 25, 60, Some((147, 16))),
    (0, 1800, 60, 60, Some((0, 1))),
    (749, 1800, 25, 60, Some((85844367, 52550))),
    (750, 1800, 25, 60, None),
    (751, 1800, 25, 60, None),
    (19933, 20000, 299, 300, Some((973677219, 200330))),
    (19999, 20000, 300, 300, Some((1619919, 1000))),
    (0, 1, 1, 300, Some((268203, 2000))),
];

fn parts(delay: Option<WideRatio>) -> Option<(u128, u128)> {
    let ratio = delay?;
    Some((ratio.num(), ratio.den()))
}

#[test]
fn delays(rt: HostRuntime) -> Result<(), Fail> {
    for (arrival, saturation, effective, cycle, want) in ROWS {
        assert!(rt; arrival <= 20000 && saturation >= 1 && saturation <= 20000);
        assert!(rt; effective >= 1 && effective <= cycle && is_cycle(cycle));
        let lane = Lane {
            label: Label::new(b"A1").ok_or("no label")?,
            group: 0,
            arrival,
            saturation,
            limit: 900,
        };
        assert_eq!(rt; parts(delay(&lane, effective, cycle)), want, "of {arrival}");
    }
    Ok(())
}

#[test]
fn wide_ratios_in_lowest_terms(rt: HostRuntime) {
    let half = WideRatio::new(u128::MAX / 5, u128::MAX / 5 * 2);
    assert!(rt; half.num() == 1 && half.den() == 2);
    let none = WideRatio::new(0, 7);
    assert!(rt; none.num() == 0 && none.den() == 1);
    let kept = WideRatio::new(u128::MAX, 2);
    assert!(rt; kept.num() == u128::MAX && kept.den() == 2);
}

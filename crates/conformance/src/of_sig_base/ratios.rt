use sig_base::Ratio;
use std::cmp::Ordering;

/// Two numbers, and the parts of their ratio.
const RATIOS: [(u64, u64, Option<(u64, u64)>); 4] = [
    (2, 3, Some((2, 3))),
    (4, 6, Some((2, 3))),
    (6, 4, Some((3, 2))),
    (1, 0, None),
];

#[test]
fn ratios(rt: HostRuntime) {
    for (num, den, parts) in RATIOS {
        let found = Ratio::new(num, den).map(|ratio| (ratio.num(), ratio.den()));
        assert_eq!(rt; found, parts, "{num} over {den}");
    }
    let one = Ratio::new(1, 1).expect(&rt, "a ratio");
    let more = Ratio::new(57, 56).expect(&rt, "a ratio");
    assert!(rt; more.compare(&one) == Ordering::Greater);
}

/// Two numbers, and whether they are in lowest terms as they stand.
const TERMS: [(u64, u64, bool); 7] = [
    (2, 3, true),
    (4, 6, false),
    (0, 1, true),
    (0, 2, false),
    (1, 0, false),
    (u64::MAX, 1, true),
    (u64::MAX, u64::MAX, false),
];

#[test]
fn ratios_in_lowest_terms(rt: HostRuntime) {
    for (num, den, lowest) in TERMS {
        let found = Ratio::in_lowest_terms(num, den).map(|ratio| (ratio.num(), ratio.den()));
        let want = if lowest { Some((num, den)) } else { None };
        assert_eq!(rt; found, want, "{num} over {den}");
    }
}

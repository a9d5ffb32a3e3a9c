use super::{Row, check};
use samples::PAIR;
use std::test::Fail;

/// The second version.
const SECOND: (&str, &str) = ("version = 1", "version = 2");

/// A maximum of the first group, of which the minimum is 7 seconds.
const MAXIMA: [Row<'static>; 13] = [
    (&[SECOND], "a junction"),
    (
        &[SECOND, ("gain = 0", "gain = 0\nmax_green = 7")],
        "a junction",
    ),
    (
        &[SECOND, ("gain = 0", "gain = 0\nmax_green = 300")],
        "a junction",
    ),
    (
        &[SECOND, ("gain = 0", "gain = 0\nmax_green = 6")],
        "15 max_green group 1 max_green",
    ),
    (
        &[SECOND, ("gain = 0", "gain = 0\nmax_green = 0")],
        "5 range group 1 max_green",
    ),
    (
        &[SECOND, ("gain = 0", "gain = 0\nmax_green = 301")],
        "5 range group 1 max_green",
    ),
    (
        &[SECOND, ("gain = 0", "gain = 0\nmax_green = \"20\"")],
        "3 shape group 1 max_green",
    ),
    (
        &[SECOND, ("gain = 0", "gain = 0\nmax_green = 2.0")],
        "3 shape group 1 max_green",
    ),
    (
        &[SECOND, ("= 450", "= 450\nmax_green = 20")],
        "3 shape lane 1 other",
    ),
    (
        &[("gain = 0", "gain = 0\nmax_green = 20")],
        "3 shape group 1 other",
    ),
    (
        &[("gain = 0", "gain = 0\nmax_green = \"20\"")],
        "3 shape group 1 other",
    ),
    (
        &[("gain = 0", "gain = 0\nmax_green = 0")],
        "3 shape group 1 other",
    ),
    (
        &[("version = 1", "version = 2.0")],
        "2 version top 0 version",
    ),
];

/// Two changes: the kind that is looked for first is told.
const TWO_FAULTS: [Row<'static>; 4] = [
    (
        &[
            SECOND,
            ("gain = 0", "gain = 0\nmax_green = 6"),
            ("gain = 0\n\n", "gain = 4\n\n"),
        ],
        "12 end_gain group 2 end_gain",
    ),
    (
        &[
            SECOND,
            ("gain = 0", "gain = 0\nmax_green = 6"),
            ("arrival = 450", "arrival = 0"),
            ("arrival = 450", "arrival = 0"),
        ],
        "14 no_flow top 0 lane",
    ),
    (
        &[
            SECOND,
            ("gain = 0", "gain = 0\nmax_green = 301"),
            ("min_green = 7", "min_green = 121"),
        ],
        "5 range group 1 min_green",
    ),
    (
        &[
            ("version = 1", "version = 3"),
            ("gain = 0", "gain = 0\nmax_green = 6"),
        ],
        "2 version top 0 version",
    ),
];

#[test]
fn maxima(rt: HostRuntime) -> Result<(), Fail> {
    check(&rt, rt.alloc(), PAIR, &MAXIMA)?;
    check(&rt, rt.alloc(), PAIR, &TWO_FAULTS)
}

use super::{Row, check_rows};
use certificate_checker::Rule;
use certificate_checker::Verdict::{Broken, Partial, Proved};
use junction_files::read;
use plan_model::PlanFault;
use samples::PAIR;
use samples::pair::{COMMON, SATURATED, Side, pair};
use std::test::Fail;

const EVEN: &str = "{\"cycle\":60,\"greens\":[25,25],\"starts\":[0,30]}";

const UNEVEN: &str = "{\"cycle\":60,\"greens\":[26,24],\"starts\":[0,31]}";

/// Group B is green to second 1 of the next cycle.
const CLASHING: &str = "{\"cycle\":60,\"greens\":[30,22],\"starts\":[1,40]}";

const CLASH: Rule = Rule::Fit(PlanFault::Clash(0, 1, 1));

/// The even plan's multiplier is 3/2, the uneven one's 36/25. To beat that takes greens of 25: 25 + 5 there and back
/// are the cycle.
const ONE_CYCLE: [Row; 10] = [
    ("[[[0,1]]]", ("capacity", "[1,1]", EVEN, 200_000), Proved),
    (
        "[[[0,1]]]",
        ("capacity", "[1,1]", UNEVEN, 200_000),
        Broken(Rule::Sum, 60, 0),
    ),
    ("[[[0,1]]]", ("capacity", "[3,2]", EVEN, 1), Proved),
    (
        "[[[0,1]]]",
        ("capacity", "[2,1]", EVEN, 1),
        Broken(Rule::Least, 0, 0),
    ),
    ("[]", ("cycle", "[1,1]", CLASHING, 1), Broken(CLASH, 0, 0)),
    ("[]", ("cycle", "[1,1]", EVEN, 1), Proved),
    (
        "[[[0,1]]]",
        ("cycle", "[1,1]", EVEN, 1),
        Broken(Rule::Cycles, 0, 0),
    ),
    (
        "[[[0,1]]]",
        ("capacity", "[1,1]", "null", 1),
        Broken(Rule::Plan, 0, 0),
    ),
    (
        "[[[0,1]]]",
        ("cycle", "[1,1]", "null", 1),
        Broken(Rule::Plan, 0, 0),
    ),
    (
        "[[[0,1]]]",
        ("infeasible", "[2,1]", EVEN, 1),
        Broken(Rule::Plan, 0, 0),
    ),
];

#[test]
fn plans_at_one_cycle(rt: HostRuntime) -> Result<(), Fail> {
    let alloc = rt.alloc();
    check_rows(&rt, alloc, &read(alloc, PAIR.as_bytes())?, &ONE_CYCLE)
}

const OF_42: &str = "{\"cycle\":42,\"greens\":[16,16],\"starts\":[0,21]}";

const OF_40: &str = "{\"cycle\":40,\"greens\":[15,15],\"starts\":[0,20]}";

const EACH_CYCLE: &str = "[[[0,1]],[[0,1]],[[0,1]]]";

/// A green g serves 3.6 g / C times the arrivals: 16 seconds at the cycle of 42 serve 48/35, which takes 16 seconds at
/// 40 and 41 too, and to beat it 17 at 42. To beat the 27/20 of 15 seconds at 40 takes 16.
const THREE_CYCLES: [Row; 4] = [
    (EACH_CYCLE, ("capacity", "[1,1]", OF_42, 3), Proved),
    (
        "[[[0,1]],[[0,1]]]",
        ("capacity", "[1,1]", OF_42, 3),
        Broken(Rule::Cycles, 0, 0),
    ),
    ("[[[0,1]],[null]]", ("stopped", "[1,1]", OF_40, 1), Partial),
    (
        "[[[0,1]],[null]]",
        ("stopped", "[1,1]", OF_40, 2),
        Broken(Rule::Budget, 0, 0),
    ),
];

#[test]
fn plans_over_three_cycles(rt: HostRuntime) -> Result<(), Fail> {
    let alloc = rt.alloc();
    let text = pair(alloc, (40, 42), COMMON, COMMON, (5, 5))?;
    check_rows(&rt, alloc, &read(alloc, text.as_bytes())?, &THREE_CYCLES)
}

const OF_20: &str = "{\"cycle\":20,\"greens\":[10,10],\"starts\":[0,10]}";

const OF_22: &str = "{\"cycle\":22,\"greens\":[11,11],\"starts\":[0,11]}";

/// Without losses half of the cycle serves 9/5 at 20 and at 22 seconds. So the plan of 20 is the one; beside that of
/// 22 the walk at 20 has 10 + 10 - 20.
const SHORTER_CYCLE: [Row; 2] = [
    (EACH_CYCLE, ("capacity", "[1,1]", OF_20, 3), Proved),
    (
        EACH_CYCLE,
        ("capacity", "[1,1]", OF_22, 3),
        Broken(Rule::Sum, 20, 0),
    ),
];

#[test]
fn the_shorter_of_two_cycles(rt: HostRuntime) -> Result<(), Fail> {
    let alloc = rt.alloc();
    let quick = Side {
        min_green: 1,
        amber: 0,
        red_amber: 0,
        ..COMMON
    };
    let text = pair(alloc, (20, 22), quick, quick, (0, 0))?;
    check_rows(&rt, alloc, &read(alloc, text.as_bytes())?, &SHORTER_CYCLE)
}

const EIGHT_EACH: &str = "{\"cycle\":20,\"greens\":[8,8],\"starts\":[0,10]}";

const NINE_EACH: &str = "{\"cycle\":22,\"greens\":[9,9],\"starts\":[0,11]}";

const TEN_TREES: &str =
    "[[[0,1]],[[0,1]],[[0,1]],[[0,1]],[[0,1]],[[0,1]],[[0,1]],[[0,1]],[[0,1]],[[0,1]]]";

/// Each group needs four tenths of the cycle, and 4 seconds are lost: more than the cycle at each from 10 to 19, and at
/// 21, where 9 + 2 + 9 + 2 are 22.
#[test]
fn shortest_cycles(rt: HostRuntime) -> Result<(), Fail> {
    let alloc = rt.alloc();
    let later = pair(alloc, (21, 60), SATURATED, SATURATED, (2, 2))?;
    let at_22 = [("[[[0,1]]]", ("cycle", "[1,1]", NINE_EACH, 200_000), Proved)];
    check_rows(&rt, alloc, &read(alloc, later.as_bytes())?, &at_22)?;
    let text = pair(alloc, (10, 60), SATURATED, SATURATED, (2, 2))?;
    let at_20 = ("cycle", "[1,1]", EIGHT_EACH, 200_000);
    let rows = [
        (TEN_TREES, at_20, Proved),
        ("[[[0,1]]]", at_20, Broken(Rule::Cycles, 0, 0)),
    ];
    check_rows(&rt, alloc, &read(alloc, text.as_bytes())?, &rows)
}

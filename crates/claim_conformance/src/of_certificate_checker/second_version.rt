//! Junctions with a longest green or a start link.
use super::{INFEASIBLE, Row, check_rows};
use certificate_checker::Rule;
use certificate_checker::Verdict::{Broken, Proved};
use junction_files::read;
use junction_model::Junction;
use plan_model::PlanFault;
use samples::EARLY_START;
use samples::pair::bounded_pair;
use samples::texts::with_cycles;
use std::alloc::Global;
use std::test::Fail;

/// The early start at one cycle alone.
fn early_start_at(alloc: Global, cycle: u32) -> Result<Junction, Fail> {
    let text = with_cycles(alloc, EARLY_START, cycle, cycle)?;
    Ok(read(alloc, text.as_bytes())?)
}

/// Item 1 is the pair of B and C, item 2 the link from A to C.
const SPLIT: &str = "[[2,1,[0,1,2],[0,2,1],[0,2]]]";

/// At 33 seconds the sums are 7 + 5 + 7 + 5 - 10, 10 + 7 + 5 + 7 + 5 - 33 and 33 - 10; at 34 the second one is 0.
#[test]
fn trees_with_a_link(rt: HostRuntime) -> Result<(), Fail> {
    let alloc = rt.alloc();
    check_rows(
        &rt,
        alloc,
        &early_start_at(alloc, 33)?,
        &[
            (SPLIT, INFEASIBLE, Proved),
            (
                "[[2,2,[0,1],[0,1],[0,2]]]",
                INFEASIBLE,
                Broken(Rule::Pair, 33, 1),
            ),
            ("[[3,[0,1],[0,2]]]", INFEASIBLE, Broken(Rule::Pair, 33, 0)),
        ],
    )?;
    check_rows(
        &rt,
        alloc,
        &early_start_at(alloc, 34)?,
        &[(SPLIT, INFEASIBLE, Broken(Rule::Sum, 34, 3))],
    )
}

const LATE: &str = "{\"cycle\":40,\"greens\":[7,7,7],\"starts\":[0,23,11]}";

const IN_TIME: &str = "{\"cycle\":40,\"greens\":[7,7,7],\"starts\":[0,23,10]}";

#[test]
fn plans_with_a_link(rt: HostRuntime) -> Result<(), Fail> {
    let alloc = rt.alloc();
    check_rows(
        &rt,
        alloc,
        &early_start_at(alloc, 40)?,
        &[
            (
                "[]",
                ("cycle", "[1,1]", LATE, 1),
                Broken(Rule::Fit(PlanFault::Link(0)), 0, 0),
            ),
            ("[]", ("cycle", "[1,1]", IN_TIME, 1), Proved),
        ],
    )
}

const EVEN: &str = "{\"cycle\":60,\"greens\":[25,25],\"starts\":[0,30]}";

const SHORT: &str = "{\"cycle\":60,\"greens\":[20,30],\"starts\":[0,25]}";

/// With 20 seconds A serves 6/5 times its arrivals, and no longer green serves more.
const BOUNDED: [Row; 3] = [
    (
        "[[[0,1]]]",
        ("capacity", "[1,1]", EVEN, 1),
        Broken(Rule::Fit(PlanFault::MaxGreen(0)), 0, 0),
    ),
    ("[[[0]]]", ("capacity", "[1,1]", SHORT, 1), Proved),
    (
        "[[[1]]]",
        ("capacity", "[1,1]", SHORT, 1),
        Broken(Rule::Sum, 60, 0),
    ),
];

#[test]
fn plans_with_a_longest_green(rt: HostRuntime) -> Result<(), Fail> {
    let alloc = rt.alloc();
    let text = bounded_pair(alloc)?;
    check_rows(&rt, alloc, &read(alloc, text.as_bytes())?, &BOUNDED)
}

use super::{INFEASIBLE, check_rows};
use certificate_checker::Rule;
use certificate_checker::Verdict::{Broken, Proved};
use junction_files::read;
use junction_model::Junction;
use samples::texts::with_cycles;
use samples::{PAIR, RING};
use std::alloc::Global;
use std::test::Fail;

/// The ring at one cycle alone.
pub fn ring_at(alloc: Global, cycle: u32) -> Result<Junction, Fail> {
    let text = with_cycles(alloc, RING, cycle, cycle)?;
    Ok(read(alloc, text.as_bytes())?)
}

/// A step of the ring takes 10 + 3 seconds forth and 10 + 8 back, so three forth are 39 and three back 54, less one
/// cycle, or two where it goes against the order. Only the last pair is open at the root.
#[test]
fn trees_of_three_groups(rt: HostRuntime) -> Result<(), Fail> {
    let alloc = rt.alloc();
    check_rows(
        &rt,
        alloc,
        &ring_at(alloc, 39)?,
        &[(
            "[[2,[0,1,2],[0,2,1]]]",
            INFEASIBLE,
            Broken(Rule::Sum, 39, 1),
        )],
    )?;
    check_rows(
        &rt,
        alloc,
        &ring_at(alloc, 38)?,
        &[
            ("[[2,[0,1,2],[0,2,1]]]", INFEASIBLE, Proved),
            (
                "[[2,[0,2,1],[0,1,2]]]",
                INFEASIBLE,
                Broken(Rule::Sum, 38, 1),
            ),
            ("[[2,[0,1,2]]]", INFEASIBLE, Broken(Rule::Tree, 38, 2)),
            ("[[[1,2]]]", INFEASIBLE, Broken(Rule::Edge, 38, 0)),
            ("[[0,[0,1],[0,1]]]", INFEASIBLE, Broken(Rule::Pair, 38, 0)),
            (
                "[[2,[0,1,2],[0,2,1],null]]",
                INFEASIBLE,
                Broken(Rule::Tree, 38, 3),
            ),
            ("[]", INFEASIBLE, Broken(Rule::Cycles, 0, 0)),
            ("[[]]", INFEASIBLE, Broken(Rule::Tree, 38, 0)),
            ("[[[0,0]]]", INFEASIBLE, Broken(Rule::Edge, 38, 0)),
            ("[[2,2,[0,1]]]", INFEASIBLE, Broken(Rule::Pair, 38, 1)),
        ],
    )
}

/// There and back between the first two groups takes 13 + 18 seconds.
#[test]
fn a_node_after_a_whole_tree(rt: HostRuntime) -> Result<(), Fail> {
    let alloc = rt.alloc();
    check_rows(
        &rt,
        alloc,
        &ring_at(alloc, 30)?,
        &[
            ("[[[0,1]]]", INFEASIBLE, Proved),
            ("[[[0,1],[0,1]]]", INFEASIBLE, Broken(Rule::Tree, 30, 1)),
            ("[[[0,1],null]]", INFEASIBLE, Broken(Rule::Tree, 30, 1)),
            ("[[[0,1]],[[0,1]]]", INFEASIBLE, Broken(Rule::Cycles, 0, 0)),
        ],
    )
}

/// A green g serves 3.6 g / 60 times the arrivals: 33.3 seconds serve two times, and 333.3 would twenty times.
#[test]
fn a_walk_of_one_group(rt: HostRuntime) -> Result<(), Fail> {
    let alloc = rt.alloc();
    let twice = ("infeasible", "[2,1]", "null", 1);
    let often = ("infeasible", "[20,1]", "null", 1);
    check_rows(
        &rt,
        alloc,
        &read(alloc, PAIR.as_bytes())?,
        &[
            ("[[[0,1]]]", twice, Proved),
            ("[[[0]]]", twice, Broken(Rule::Sum, 60, 0)),
            ("[[[0]]]", often, Proved),
            ("[[[1]]]", often, Proved),
            ("[[5]]", twice, Broken(Rule::Pair, 60, 0)),
            ("[[131]]", twice, Broken(Rule::Pair, 60, 0)),
        ],
    )
}

use super::trees::ring_at;
use super::{INFEASIBLE, STOPPED, check_rows};
use certificate_checker::Rule;
use certificate_checker::Verdict::{Broken, Partial};
use junction_files::read;
use samples::{CROSSROADS, RING};
use std::test::Fail;

/// In a claim of another kind, in a tree before the last, before a visited node, and nowhere in the last tree.
#[test]
fn unvisited_nodes(rt: HostRuntime) -> Result<(), Fail> {
    let alloc = rt.alloc();
    check_rows(
        &rt,
        alloc,
        &read(alloc, RING.as_bytes())?,
        &[
            ("[[2,null,null]]", STOPPED, Partial),
            ("[[null],[null]]", STOPPED, Broken(Rule::Unvisited, 39, 0)),
            (
                "[[2,null,[0,2,1]]]",
                STOPPED,
                Broken(Rule::Unvisited, 39, 2),
            ),
            ("[]", STOPPED, Broken(Rule::Cycles, 0, 0)),
            ("[[]]", STOPPED, Broken(Rule::Tree, 39, 0)),
            ("[[null]]", STOPPED, Broken(Rule::Budget, 0, 0)),
        ],
    )?;
    check_rows(
        &rt,
        alloc,
        &ring_at(alloc, 38)?,
        &[
            (
                "[[2,[0,1,2],null]]",
                INFEASIBLE,
                Broken(Rule::Unvisited, 38, 2),
            ),
            (
                "[[2,[0,1,2],[0,2,1]]]",
                STOPPED,
                Broken(Rule::Unvisited, 38, 3),
            ),
            ("[[2,[0,1,2]]]", STOPPED, Broken(Rule::Tree, 38, 2)),
            ("[[null],[null]]", STOPPED, Broken(Rule::Cycles, 0, 0)),
        ],
    )
}

/// The items 6 and 7 are open at the root; below the Split the item 6 isn't.
#[test]
fn a_split_after_an_unvisited_node(rt: HostRuntime) -> Result<(), Fail> {
    let alloc = rt.alloc();
    check_rows(
        &rt,
        alloc,
        &read(alloc, CROSSROADS.as_bytes())?,
        &[
            (
                "[[6,null,7,null,null]]",
                STOPPED,
                Broken(Rule::Unvisited, 40, 2),
            ),
            ("[[6,null,6]]", STOPPED, Broken(Rule::Pair, 40, 2)),
            ("[[6,null,99]]", STOPPED, Broken(Rule::Pair, 40, 2)),
            (
                "[[6,7,null,null,null]]",
                STOPPED,
                Broken(Rule::Budget, 0, 0),
            ),
        ],
    )
}

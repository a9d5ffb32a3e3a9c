use conflict_matrix::Conflicts;
use constraint_cycles::Mark::{First, Open, Second};
use constraint_cycles::{Mark, weight};
use samples::links::{conflicts_of, link, linked};
use samples::orders::marked;
use samples::questions::are_asked;
use samples::{CROSSROADS, PAIR};
use std::process::Abort;
use std::test::Fail;

/// The marks of the last items, the need of every group, the cycle, the two groups, and the weight of
/// their edge.
type Case<'a> = (&'a [Mark], u32, u32, (usize, usize), Option<i64>);

fn check(rt: &impl Abort, conflicts: &Conflicts, cases: &[Case]) -> Result<(), Fail> {
    for (k, case) in cases.iter().enumerate() {
        let (marks, need, cycle, (u, v), want) = *case;
        let order = marked(conflicts, marks)?;
        let needs = [need; 16];
        assert!(rt; are_asked(conflicts, &needs, cycle));
        assert!(rt; u < conflicts.groups() && v < conflicts.groups());
        assert_eq!(rt;
            weight(conflicts, &order, &needs, cycle, u, v),
            want,
            "case {k}"
        );
    }
    Ok(())
}

/// Group 0 is first of its pairs: from it the green and the intergreen, 7 + 5, and to it a cycle less.
/// Every group starts with group 0 or later, and less than a cycle after it. No other groups without a
/// conflict have an edge.
#[test]
fn weights_of_the_root(rt: HostRuntime) -> Result<(), Fail> {
    check(
        &rt,
        &conflicts_of(rt.alloc(), PAIR)?,
        &[
            (&[], 7, 30, (0, 1), Some(12)),
            (&[], 7, 30, (1, 0), Some(-18)),
        ],
    )?;
    check(
        &rt,
        &conflicts_of(rt.alloc(), CROSSROADS)?,
        &[
            (&[], 10, 90, (0, 1), Some(0)),
            (&[], 10, 90, (1, 0), Some(-89)),
            (&[], 10, 90, (0, 6), Some(15)),
            (&[], 10, 90, (6, 0), Some(-72)),
            (&[], 10, 90, (1, 7), None),
            (&[], 10, 90, (3, 3), None),
        ],
    )
}

/// Two groups without a conflict, neither of them group 0. In cycles of 30 seconds a wait of 40 is one
/// of 10, and a follower that has passed the cycle's end starts 20 seconds before its leader.
#[test]
fn weights_of_a_link(rt: HostRuntime) -> Result<(), Fail> {
    check(
        &rt,
        &linked(rt.alloc(), CROSSROADS, &[link(2, 3, 40)])?,
        &[
            (&[First], 7, 30, (2, 3), Some(10)),
            (&[First], 7, 30, (3, 2), Some(-10)),
            (&[Second], 7, 30, (2, 3), Some(-20)),
            (&[Second], 7, 30, (3, 2), Some(20)),
            (&[Open], 7, 30, (2, 3), None),
        ],
    )
}

ghost use Rattle.conflict_matrix.specs.Conflicts.{matrix_of};
ghost use Rattle.constraint_cycles.specs.Marks.{IsOrderFor};
ghost use Rattle.constraint_cycles.specs.Order.{order_of};

use conflict_matrix::Conflicts;
use constraint_cycles::Mark::{First, Open, Second};
use constraint_cycles::{Mark, Order, Walk, closes, walk_sum};
use samples::links::{conflicts_of, link, linked};
use samples::orders::marked;
use samples::questions::{are_asked, are_below};
use samples::{CHAIN, PAIR, RING};
use std::process::Abort;
use std::test::Fail;

/// The marks of the last items, the needs of groups 0 and 1 and of all others, the cycle, the walk, its
/// sum, and whether it closes.
type Case<'a> = (&'a [Mark], [u32; 3], u32, &'a [u8], Option<i64>, bool);

/// The sum of the walk's weights, and whether it closes.
fn judged(
    rt: &impl Abort,
    conflicts: &Conflicts,
    order: &Order,
    needs: &[u32; 16],
    cycle: u32,
    groups: &[u8],
) -> (Option<i64>, bool)
    requires { IsOrderFor (matrix_of conflicts.now) (order_of order.now) }
{
    assert!(rt; are_asked(conflicts, needs, cycle));
    let walk = Walk::new(groups).expect(rt, "a walk");
    assert!(rt; are_below(walk.groups(), conflicts.groups()));
    (
        walk_sum(conflicts, order, needs, cycle, &walk),
        closes(conflicts, order, needs, cycle, &walk),
    )
}

fn check(rt: &impl Abort, conflicts: &Conflicts, cases: &[Case]) -> Result<(), Fail> {
    for (k, case) in cases.iter().enumerate() {
        let (marks, needs, cycle, groups, sum, closed) = *case;
        let [first, second, others] = needs;
        let order = marked(conflicts, marks)?;
        let mut needs = [others; 16];
        needs[0] = first;
        needs[1] = second;
        let found = judged(rt, conflicts, &order, &needs, cycle, groups);
        assert_eq!(rt; found, (sum, closed), "case {k}");
    }
    Ok(())
}

/// Both needs and both intergreens of 5, less the cycle. Only a need of 301 closes a walk of one group.
#[test]
fn two_groups_there_and_back(rt: HostRuntime) -> Result<(), Fail> {
    let conflicts = conflicts_of(rt.alloc(), PAIR)?;
    check(
        &rt,
        &conflicts,
        &[
            (&[], [34, 17, 1], 60, &[0, 1], Some(1), true),
            (&[], [25, 25, 1], 60, &[0, 1], Some(0), false),
            (&[], [301, 7, 1], 60, &[0], None, true),
            (&[], [300, 7, 1], 60, &[0], None, false),
        ],
    )
}

/// A step of the ring takes 10 + 3 seconds forth and 10 + 8 back: three forth are 39, three back 54, and
/// one forth and one back 31. A sum is that less the cycle.
#[test]
fn a_ring_of_three_groups(rt: HostRuntime) -> Result<(), Fail> {
    let conflicts = conflicts_of(rt.alloc(), RING)?;
    check(
        &rt,
        &conflicts,
        &[
            (&[First], [10; 3], 39, &[0, 1, 2], Some(0), false),
            (&[First], [10; 3], 38, &[0, 1, 2], Some(1), true),
            (&[Second], [10; 3], 39, &[0, 2, 1], Some(15), true),
            (&[Open], [10; 3], 39, &[0, 1, 2], None, false),
            (&[Open], [10; 3], 30, &[0, 1], Some(1), true),
            (&[Open], [10; 3], 31, &[0, 1], Some(0), false),
        ],
    )
}

/// The third group starts 10 seconds after the first one, or where the link is Second 23 before it. A
/// green and an intergreen are 12: at cycle 33 the walks have 12 + 12 - 10, 10 + 12 + 12 - 33 and 0 + 23.
#[test]
fn a_chain_with_a_link(rt: HostRuntime) -> Result<(), Fail> {
    let conflicts = linked(rt.alloc(), CHAIN, &[link(0, 2, 10)])?;
    check(
        &rt,
        &conflicts,
        &[
            (&[First, First], [7; 3], 33, &[0, 1, 2], Some(14), true),
            (&[Second, First], [7; 3], 33, &[0, 2, 1], Some(1), true),
            (&[Second, First], [7; 3], 34, &[0, 2, 1], Some(0), false),
            (&[Open, Second], [7; 3], 33, &[0, 2], Some(23), true),
            (&[Open, Open], [7; 3], 33, &[0, 2], Some(-32), false),
            (&[Open, First], [7; 3], 33, &[1, 2], None, false),
            (&[], [7, 301, 301], 300, &[0], None, false),
            (&[], [7, 301, 7], 300, &[1], None, true),
        ],
    )
}

/// A link of a whole number of cycles asks for no wait.
#[test]
fn a_link_of_two_cycles(rt: HostRuntime) -> Result<(), Fail> {
    let conflicts = linked(rt.alloc(), CHAIN, &[link(0, 2, 60)])?;
    check(
        &rt,
        &conflicts,
        &[
            (&[Open, First], [7; 3], 30, &[0, 2], Some(0), false),
            (&[Open, Second], [7; 3], 30, &[0, 2], Some(30), true),
        ],
    )
}

/// A link between groups that conflict: 12 there for the pair, and 11 back for the link at the most. A
/// link whose follower is group 0, which is first of every pair and of no link: 10 there, 0 back, and
/// where it is Second -23 there, 23 back.
#[test]
fn links_within_a_pair_and_to_group_0(rt: HostRuntime) -> Result<(), Fail> {
    let conflicts = linked(rt.alloc(), CHAIN, &[link(2, 1, 11), link(2, 0, 10)])?;
    check(
        &rt,
        &conflicts,
        &[
            (&[Second, First, Open], [7; 3], 33, &[1, 2], Some(1), true),
            (&[Second, First, Open], [7; 3], 60, &[1, 2], Some(1), true),
            (&[Open, Open, First], [7; 3], 33, &[0, 2], Some(10), true),
            (&[Open, Open, Second], [7; 3], 33, &[0, 2], Some(0), false),
        ],
    )
}

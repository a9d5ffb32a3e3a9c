//! Least starts and closing walks, worked out from the definitions.
mod closures;

use conflict_matrix::Conflicts;
use constraint_cycles::Mark::{First, Open, Second};
use constraint_cycles::{Mark, Walk};
use difference_system::{Solved, solve};
use samples::links::{conflicts_of, link, linked};
use samples::orders::marked;
use samples::questions::are_asked;
use samples::{CHAIN, PAIR, RING};
use std::process::Abort;
use std::test::Fail;

/// The marks of the last items, the needs of groups 0 to 2, the cycle, and the starts or the walk.
type Case<'a> = (&'a [Mark], [u32; 3], u32, Want<'a>);

#[derive(Clone, Copy)]
enum Want<'a> {
    Starts([u32; 3]),
    Walk(&'a [u8]),
}

/// The three numbers, and the rest of the array.
fn filled(numbers: [u32; 3], rest: u32) -> [u32; 16] {
    let [first, second, third] = numbers;
    let mut array = [rest; 16];
    array[0] = first;
    array[1] = second;
    array[2] = third;
    array
}

fn solution(rt: &impl Abort, want: Want) -> Solved {
    match want {
        Want::Starts(starts) => Solved::Starts(filled(starts, 0)),
        Want::Walk(walk) => Solved::Walk(Walk::new(walk).expect(rt, "a walk")),
    }
}

fn check(rt: &impl Abort, conflicts: &Conflicts, cases: &[Case]) -> Result<(), Fail> {
    for (k, case) in cases.iter().enumerate() {
        let (marks, needs, cycle, want) = *case;
        let order = marked(conflicts, marks)?;
        let needs = filled(needs, 1);
        assert!(rt; are_asked(conflicts, &needs, cycle));
        let found = solve(conflicts, &order, &needs, cycle);
        assert_eq!(rt; found, solution(rt, want), "case {k}");
    }
    Ok(())
}

/// The second one starts when the first one's need and an intergreen of 5 have passed, and both needs
/// and intergreens must fit the cycle: 7 + 5 + 7 + 5 seconds fill one of 24.
#[test]
fn two_groups(rt: HostRuntime) -> Result<(), Fail> {
    let conflicts = conflicts_of(rt.alloc(), PAIR)?;
    check(
        &rt,
        &conflicts,
        &[
            (&[], [34, 17, 1], 60, Want::Walk(&[0, 1])),
            (&[], [33, 17, 1], 60, Want::Starts([0, 38, 0])),
            (&[], [25, 25, 1], 60, Want::Starts([0, 30, 0])),
            (&[], [7, 7, 1], 24, Want::Starts([0, 12, 0])),
            (&[], [7, 7, 1], 23, Want::Walk(&[0, 1])),
        ],
    )
}

/// A step of the ring takes 10 + 3 seconds forth and 10 + 8 back: three fill a cycle of 39 or of 54. Forth
/// B and C start after one step and two, back C and B; with neither order each starts one step after A.
#[test]
fn a_ring_of_three_groups(rt: HostRuntime) -> Result<(), Fail> {
    let conflicts = conflicts_of(rt.alloc(), RING)?;
    check(
        &rt,
        &conflicts,
        &[
            (&[First], [10; 3], 39, Want::Starts([0, 13, 26])),
            (&[First], [10; 3], 38, Want::Walk(&[0, 1, 2])),
            (&[Second], [10; 3], 39, Want::Walk(&[0, 2, 1])),
            (&[Second], [10; 3], 54, Want::Starts([0, 36, 18])),
            (&[Open], [10; 3], 39, Want::Starts([0, 13, 18])),
        ],
    )
}

/// The third group starts 10 seconds after the first one, and the second one 12 after the third: 10, 12
/// and 12 fill a cycle of 34. The lowest group that no green serves closes alone.
#[test]
fn a_chain_with_a_link(rt: HostRuntime) -> Result<(), Fail> {
    let conflicts = linked(rt.alloc(), CHAIN, &[link(0, 2, 10)])?;
    check(
        &rt,
        &conflicts,
        &[
            (&[Second, First], [7; 3], 34, Want::Starts([0, 22, 10])),
            (&[Second, First], [7; 3], 33, Want::Walk(&[0, 2, 1])),
            (&[First, First], [7; 3], 33, Want::Walk(&[0, 1, 2])),
            (&[], [7, 301, 301], 300, Want::Walk(&[1])),
            (&[], [7, 300, 7], 300, Want::Walk(&[0, 1])),
        ],
    )
}

/// A link of a whole number of cycles asks for no wait.
#[test]
fn a_link_of_two_cycles(rt: HostRuntime) -> Result<(), Fail> {
    let conflicts = linked(rt.alloc(), CHAIN, &[link(0, 2, 60)])?;
    check(
        &rt,
        &conflicts,
        &[(&[Second, First], [7; 3], 30, Want::Starts([0, 12, 0]))],
    )
}

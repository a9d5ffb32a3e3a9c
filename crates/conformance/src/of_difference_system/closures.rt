//! Closures beside `solve`: after every list of calls the same starts, or a walk that closes.
ghost use Rattle.std.specs.Prelude.{◌≡◌, ◌≤◌, Some, length, IsTrue, IfSome, slice_get};
ghost use Rattle.sig_base.specs.Times.{IsCycle};
ghost use Rattle.conflict_matrix.specs.Conflicts.{matrix_of};
ghost use Rattle.constraint_cycles.specs.declared.mark.Mark.TheVariants.{Open};
ghost use Rattle.constraint_cycles.specs.Edge.{AreNeeds};
ghost use Rattle.constraint_cycles.specs.Marks.{IsOrderFor, root_marks};
ghost use Rattle.constraint_cycles.specs.Order.{order_of, marks_of};
ghost use Rattle.difference_system.specs.Closure.{top_of, decided, MeetsTop};
ghost use Rattle.difference_system.specs.Solution.{IsSolvable};

use crate::of_difference_system::{Want, filled, solution};
use conflict_matrix::Conflicts;
use constraint_cycles::{Mark, Order, closes, order_law};
use difference_system::{Closure, Solved, solve};
use samples::links::{conflicts_of, link, linked};
use samples::questions::{are_asked, are_below};
use samples::{CHAIN, CROSSROADS, RING, SIXTEEN};
use std::alloc::Global;
use std::process::Abort;
use std::test::Fail;

/// Whether some starts meet the order, of which the closure knows as much as `solve`.
fn is_met(
    rt: &impl Abort,
    closure: &Closure,
    conflicts: &Conflicts,
    order: &Order,
    needs: &[u32; 16],
    cycle: u32,
) -> bool
    requires order { IsOrderFor (matrix_of conflicts.now) (order_of order.now) }
    requires needs { AreNeeds (matrix_of conflicts.now) needs.now }
    requires cycle { IsCycle cycle }
    ensures { IsTrue result → IsSolvable (MeetsTop closure.now) }
{
    let least = solve(conflicts, order, needs, cycle);
    match closure.answer() {
        Solved::Starts(starts) => {
            assert_eq!(rt; least, Solved::Starts(starts));
            true
        }
        Solved::Walk(walk) => {
            assert!(rt; matches!(least, Solved::Walk(_)));
            assert!(rt; are_below(walk.groups(), conflicts.groups()));
            assert!(rt; closes(conflicts, order, needs, cycle, &walk));
            false
        }
    }
}

fn has_starts(closure: &Closure) -> bool
    ensures { IsTrue result → IsSolvable (MeetsTop closure.now) }
{
    match closure.answer() {
        Solved::Starts(_) => true,
        Solved::Walk(_) => false,
    }
}

fn expect(rt: &impl Abort, closure: &Closure, want: Want) {
    assert_eq!(rt; closure.answer(), solution(rt, want));
}

fn first_open(order: &Order, items: usize) -> Option<usize>
    requires { items ≤ length (marks_of order.now) }
    ensures { IfSome result (λ item. slice_get (marks_of order.now) item ≡ Some Open) }
{
    for item in 0..items {
        if order.mark(item) == Mark::Open {
            return Some(item);
        }
    }
    None
}

/// Asks the closure at this order and at those that decide up to so many more items, each at other needs first.
fn explore(
    rt: &impl Abort,
    closure: &mut Closure,
    conflicts: &Conflicts,
    order: &Order,
    needs: &[u32; 16],
    others: &[u32; 16],
    cycle: u32,
    depth: usize,
)
    requires order { IsOrderFor (matrix_of conflicts.now) (order_of order.now) }
    requires needs { AreNeeds (matrix_of conflicts.now) needs.now }
    requires others { AreNeeds (matrix_of conflicts.now) others.now }
    requires cycle { IsCycle cycle }
    requires conflicts { closure.old.conflicts ≡ matrix_of conflicts.now }
    requires same_needs { closure.old.needs ≡ needs.now }
    requires top { top_of closure.old ≡ marks_of order.now }
    requires root { 1 ≤ length closure.old.orders }
    ensures { closure.new ≡ closure.old }
{
    order_law();
    closure.raise(others);
    is_met(rt, closure, conflicts, order, others, cycle);
    closure.raise(needs);
    if depth == 0 || !is_met(rt, closure, conflicts, order, needs, cycle) {
        return;
    }
    let items = conflicts.pair_count() + conflicts.links().len();
    if let Some(item) = first_open(order, items) {
        for way in 0..2 {
            let mark = if way == 0 { Mark::First } else { Mark::Second };
            let mut next = *order;
            next.set(item, mark);
            closure.insert(item, mark);
            explore(
                rt,
                closure,
                conflicts,
                &next,
                needs,
                others,
                cycle,
                depth - 1,
            );
            closure.undo();
        }
    }
}

/// Decides the ring's free pair at the root order.
fn decide(rt: &impl Abort, closure: &mut Closure, conflicts: &Conflicts, mark: Mark)
    requires conflicts { closure.old.conflicts ≡ matrix_of conflicts.now }
    requires root { top_of closure.old ≡ root_marks (matrix_of conflicts.now) }
    ensures { closure.new ≡ decided closure.old 2 mark }
{
    let root = Order::root(conflicts);
    let pair = first_open(&root, conflicts.pair_count()).expect(rt, "a free pair");
    assert_eq!(rt; pair, 2);
    assert!(rt; mark != Mark::Open);
    assert!(rt; has_starts(closure));
    closure.insert(pair, mark);
}

/// Every group needs so many seconds of green.
fn greens(rt: &impl Abort, conflicts: &Conflicts, seconds: u32) -> [u32; 16]
    ensures { AreNeeds (matrix_of conflicts.now) result }
{
    let needs = [seconds; 16];
    assert!(rt; are_asked(conflicts, &needs, 1));
    needs
}

/// At a cycle of 39 seconds greens of 10 seconds fit one order of the free pair, and those of 11 neither.
#[test]
fn greens_that_fit_one_order(rt: HostRuntime) -> Result<(), Fail> {
    let conflicts = conflicts_of(rt.alloc(), RING)?;
    let needs = greens(&rt, &conflicts, 10);
    let mut closure = Closure::new(rt.alloc(), &conflicts, &needs, 39)?;
    decide(&rt, &mut closure, &conflicts, Mark::First);
    expect(&rt, &closure, Want::Starts([0, 13, 26]));
    closure.raise(&greens(&rt, &conflicts, 11));
    expect(&rt, &closure, Want::Walk(&[0, 1, 2]));
    closure.raise(&needs);
    expect(&rt, &closure, Want::Starts([0, 13, 26]));
    closure.undo();
    decide(&rt, &mut closure, &conflicts, Mark::Second);
    expect(&rt, &closure, Want::Walk(&[0, 2, 1]));
    closure.undo();
    expect(&rt, &closure, Want::Starts([0, 13, 18]));
    Ok(())
}

/// Greens of 15 seconds close the root order too, and no green is enough for a group that needs 301.
#[test]
fn greens_that_close_the_root_order(rt: HostRuntime) -> Result<(), Fail> {
    let conflicts = conflicts_of(rt.alloc(), RING)?;
    let needs = greens(&rt, &conflicts, 10);
    let unserved = filled([10, 301, 301], 10);
    assert!(rt; are_asked(&conflicts, &unserved, 39));
    let mut closure = Closure::new(rt.alloc(), &conflicts, &needs, 39)?;
    decide(&rt, &mut closure, &conflicts, Mark::First);
    closure.raise(&greens(&rt, &conflicts, 15));
    closure.undo();
    assert!(rt; !has_starts(&closure));
    closure.raise(&unserved);
    expect(&rt, &closure, Want::Walk(&[1]));
    closure.raise(&needs);
    expect(&rt, &closure, Want::Starts([0, 13, 18]));
    Ok(())
}

/// A closure at the root order of the conflicts, explored.
fn check(
    rt: &impl Abort,
    alloc: Global,
    conflicts: &Conflicts,
    needs: &[u32; 16],
    others: &[u32; 16],
    cycle: u32,
    depth: usize,
) -> Result<(), Fail> {
    assert!(rt; are_asked(conflicts, needs, cycle));
    assert!(rt; are_asked(conflicts, others, cycle));
    let mut closure = Closure::new(alloc, conflicts, needs, cycle)?;
    let root = Order::root(conflicts);
    explore(
        rt,
        &mut closure,
        conflicts,
        &root,
        needs,
        others,
        cycle,
        depth,
    );
    Ok(())
}

/// Needs of 10 seconds leave the free pair both ways at a cycle of 54 seconds and one way at 39; needs of 15 close the
/// root order at 39.
#[test]
fn a_ring(rt: HostRuntime) -> Result<(), Fail> {
    let conflicts = conflicts_of(rt.alloc(), RING)?;
    for (others, cycle) in [(11, 39), (15, 39), (10, 54), (11, 54), (301, 54)] {
        check(
            &rt,
            rt.alloc(),
            &conflicts,
            &[10; 16],
            &[others; 16],
            cycle,
            1,
        )?;
    }
    Ok(())
}

/// Links that wait for a group, for the group behind it, and for no time.
#[test]
fn a_chain_with_links(rt: HostRuntime) -> Result<(), Fail> {
    let links = [link(0, 2, 10), link(1, 2, 40), link(0, 1, 120)];
    let conflicts = linked(rt.alloc(), CHAIN, &links)?;
    for cycle in [24, 33, 40, 60, 120] {
        check(&rt, rt.alloc(), &conflicts, &[7; 16], &[12; 16], cycle, 4)?;
    }
    Ok(())
}

/// The first free pairs of a crossroads of eight groups and of sixteen groups, each both ways.
#[test]
fn a_crossroads_and_sixteen_groups(rt: HostRuntime) -> Result<(), Fail> {
    for text in [CROSSROADS, SIXTEEN] {
        let conflicts = conflicts_of(rt.alloc(), text)?;
        check(&rt, rt.alloc(), &conflicts, &[7; 16], &[20; 16], 60, 7)?;
        check(&rt, rt.alloc(), &conflicts, &[20; 16], &[7; 16], 120, 7)?;
    }
    Ok(())
}

//! The difference system of an order, solved.
ghost use Rattle.std.specs.Prelude.{ℕ, ◌≤◌, ◌↔◌};
ghost use Rattle.sig_base.specs.First.{FirstOrNone, IsFirst};
ghost use Rattle.sig_base.specs.Times.{IsCycle};
ghost use Rattle.conflict_matrix.specs.Conflicts.{matrix_of};
ghost use Rattle.constraint_cycles.specs.Order.{order_of, IsClosedBy, IsMetBy};
ghost use Rattle.constraint_cycles.specs.Marks.{IsOrderFor};
ghost use Rattle.constraint_cycles.specs.Edge.{AreNeeds};
ghost use Rattle.constraint_cycles.specs.Starts.{MeetsEdges};
ghost use Rattle.constraint_cycles.specs.Walk.{IsPositiveCycle};
ghost use Rattle.constraint_cycles.specs.Closing.{IsUnserved};
ghost use Rattle.difference_system.specs.System.{groups_of, edges_of};
ghost use Rattle.difference_system.specs.Solution.{IsStarts, IfStarts, IfWalk, IsWalkOf, IsSolvable, AreLeastStarts, AreStartsWithin, IsClosingCircuit};

use crate::begin::begin;
use crate::edge_list::EdgeList;
use crate::relax::settle;
use crate::solved::Solved;
use crate::system::System;
use conflict_matrix::Conflicts;
use constraint_cycles::{Order, Walk, edge_law, exclusion_law};
use sig_base::LONGEST_GREEN;

/// Starts that have settled, or the walk that closes the system.
fn settled(system: System) -> Solved
    ensures least { IfStarts result (AreLeastStarts (MeetsEdges (edges_of system.entry))) }
    ensures within { IfStarts result (AreStartsWithin (groups_of system.entry) system.entry.cycle) }
    ensures walk { IfWalk result (IsClosingCircuit (IsPositiveCycle (edges_of system.entry))) }
{
    let list = EdgeList::gather(system);
    let mut state = begin(&system);
    match settle(&list, &mut state) {
        Some(walk) => Solved::Walk(walk),
        None => Solved::Starts(*state.starts()),
    }
}

/// The lowest group for which no green that it may have is enough.
pub fn first_unserved(conflicts: &Conflicts, needs: &[u32; 16]) -> Option<u8>
    ensures { FirstOrNone (IsUnserved (matrix_of conflicts.now) needs.now)
        (matrix_of conflicts.now).groups result }
{
    for group in 0..conflicts.groups() {
        if needs[group] > LONGEST_GREEN {
            return Some(group as u8);
        }
    }
    None
}

/// Solves an order: the least starts in seconds that meet it, with group 0 at second 0, where some do; else a walk that
/// closes it, has no group twice and begins with its lowest group. Where no green that a group may have is enough (its need
/// is then 301, one past the longest green), the walk is that of the lowest such group.
pub fn solve(conflicts: &Conflicts, order: &Order, needs: &[u32; 16], cycle: u32) -> Solved
    requires order { IsOrderFor (matrix_of conflicts.now) (order_of order.now) }
    requires needs { AreNeeds (matrix_of conflicts.now) needs.now }
    requires cycle { IsCycle cycle }
    ensures exactly { IsStarts result
        ↔ IsSolvable (IsMetBy conflicts.now order.now needs.now cycle) }
    ensures least { IfStarts result
        (AreLeastStarts (IsMetBy conflicts.now order.now needs.now cycle)) }
    ensures within { IfStarts result (AreStartsWithin (matrix_of conflicts.now).groups cycle) }
    ensures walk { IfWalk result
        (IsClosingCircuit (IsClosedBy conflicts.now order.now needs.now cycle)) }
    ensures unserved { (g : ℕ)
        → IsFirst (IsUnserved (matrix_of conflicts.now) needs.now)
        (matrix_of conflicts.now).groups g
        → IsWalkOf result g }
{
    exclusion_law();
    edge_law();
    if let Some(group) = first_unserved(conflicts, needs) {
        return Solved::Walk(Walk::new(&[group]).unwrap());
    }
    settled(System::new(conflicts, order, needs, cycle))
}

//! What deciding one more item comes to: its two edges, or a walk that closes the order.
ghost use Rattle.std.specs.Prelude.{ℕ, List, ◌≡◌, ◌≢◌, ◌<◌, Some, slice_get, slice_set};
ghost use Rattle.sig_base.specs.Times.{IsCycle};
ghost use Rattle.conflict_matrix.specs.Conflicts.{matrix_of};
ghost use Rattle.constraint_cycles.specs.declared.mark.Mark.TheVariants.{Open};
ghost use Rattle.constraint_cycles.specs.Edge.{AreNeeds};
ghost use Rattle.constraint_cycles.specs.Marks.{IsOrderFor, item_count};
ghost use Rattle.constraint_cycles.specs.Order.{order_of, marks_of, IsClosedBy, IsMetBy};
ghost use Rattle.difference_system.specs.Decision.{AreDecisionEdges, IsDecision, IsMetWith};
ghost use Rattle.difference_system.specs.Ends.{AreEndsAmong};
ghost use Rattle.difference_system.specs.Solution.{IsClosingCircuit};
ghost use Rattle.difference_system.specs.Sums.{sum_of};

use crate::solution::solve;
use crate::solved::Solved;
use crate::sums::guess::guess;
use crate::sums::matrix::{Sums, TwoEdges};
use crate::sums::root::seconds;
use crate::system::System;
use crate::ways::Ways;
use conflict_matrix::{Conflicts, pair_laws};
use constraint_cycles::{Mark, Order, Walk, closes, decided_law, edge_law, root_law};

/// The two groups of an item.
fn ends(conflicts: &Conflicts, item: usize) -> (usize, usize)
    requires { item < item_count (matrix_of conflicts.now) }
    ensures { AreEndsAmong (matrix_of conflicts.now) item result }
{
    pair_laws();
    let pairs = conflicts.pair_count();
    if item < pairs {
        return conflicts.pair(item);
    }
    let link = conflicts.links()[item - pairs];
    (link.leader as usize, link.follower as usize)
}

/// What deciding one more item comes to.
#[derive(Clone, Copy)]
pub enum Decision {
    /// Starts meet the order: these are its edges between the two groups of the item.
    Open(TwoEdges),
    /// This walk closes it.
    Closed(Walk),
}

/// The edges of an order between the two groups of the item that it decided last.
fn decision_edges(
    conflicts: &Conflicts,
    order: &Order,
    decided: &Order,
    needs: &[u32; 16],
    cycle: u32,
    item: usize,
    mark: Mark,
) -> TwoEdges
    requires order { IsOrderFor (matrix_of conflicts.now) (order_of decided.now) }
    requires next { marks_of decided.now ≡ slice_set (marks_of order.now) item mark }
    requires needs { AreNeeds (matrix_of conflicts.now) needs.now }
    requires cycle { IsCycle cycle }
    requires was_open { slice_get (marks_of order.now) item ≡ Some Open }
    requires decides { mark ≢ Open }
    ensures { AreDecisionEdges (matrix_of conflicts.now) (marks_of decided.now) needs.now cycle
        item result }
{
    pair_laws();
    edge_law();
    decided_law();
    let (from, to) = ends(conflicts, item);
    let system = System::new(conflicts, decided, needs, cycle);
    TwoEdges {
        from,
        to,
        forth: seconds(&system, from, to),
        back: seconds(&system, to, from),
    }
}

/// A walk that closes an order which no starts meet: one that is guessed, or that of `solve`.
fn closing_walk(
    ways: &Ways,
    conflicts: &Conflicts,
    order: &Order,
    needs: &[u32; 16],
    cycle: u32,
    sums: &Sums,
    edges: TwoEdges,
) -> Walk
    requires order { IsOrderFor (matrix_of conflicts.now) (order_of order.now) }
    requires needs { AreNeeds (matrix_of conflicts.now) needs.now }
    requires cycle { IsCycle cycle }
    requires from { edges.from < (matrix_of conflicts.now).groups }
    requires to { edges.to < (matrix_of conflicts.now).groups }
    requires closed { (starts : List ℕ) → ¬ IsMetBy conflicts.now order.now needs.now cycle starts }
    ensures { IsClosingCircuit (IsClosedBy conflicts.now order.now needs.now cycle) result }
{
    if let Some(walk) = guess(ways, sums, conflicts.groups(), edges) {
        if closes(conflicts, order, needs, cycle, &walk) {
            return walk;
        }
    }
    match solve(conflicts, order, needs, cycle) {
        Solved::Walk(walk) => walk,
        Solved::Starts(_) => unreachable!(),
    }
}

/// Decides one more item of an order which starts meet, with these sums.
pub fn decide_item(
    ways: &Ways,
    conflicts: &Conflicts,
    order: &Order,
    decided: &Order,
    needs: &[u32; 16],
    cycle: u32,
    sums: &Sums,
    item: usize,
    mark: Mark,
) -> Decision
    requires order { IsOrderFor (matrix_of conflicts.now) (order_of order.now) }
    requires decided { IsOrderFor (matrix_of conflicts.now) (order_of decided.now) }
    requires next { marks_of decided.now ≡ slice_set (marks_of order.now) item mark }
    requires needs { AreNeeds (matrix_of conflicts.now) needs.now }
    requires cycle { IsCycle cycle }
    requires was_open { slice_get (marks_of order.now) item ≡ Some Open }
    requires decides { mark ≢ Open }
    requires met { IsMetWith (matrix_of conflicts.now) (marks_of order.now) needs.now cycle
        sums.now }
    ensures { IsDecision (matrix_of conflicts.now) (marks_of decided.now) needs.now cycle
        (sum_of sums.now) result }
{
    pair_laws();
    root_law();
    edge_law();
    decided_law();
    let edges = decision_edges(conflicts, order, decided, needs, cycle, item, mark);
    if sums.greatest_round(conflicts.groups(), edges) > 0 {
        return Decision::Closed(closing_walk(ways, conflicts, decided, needs, cycle, sums, edges));
    }
    Decision::Open(edges)
}

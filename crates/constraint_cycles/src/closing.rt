ghost use Rattle.std.specs.Prelude.{◌≡◌, ◌<◌, ◌↔◌, None, length, All, IsTrue};
ghost use Rattle.sig_base.specs.Times.{IsCycle};
ghost use Rattle.conflict_matrix.specs.Conflicts.{matrix_of};
ghost use Rattle.constraint_cycles.specs.Order.{order_of, edges_for, IsClosedBy};
ghost use Rattle.constraint_cycles.specs.Marks.{IsOrderFor};
ghost use Rattle.constraint_cycles.specs.Edge.{AreNeeds};
ghost use Rattle.constraint_cycles.specs.Walk.{IsWalk, sum_of};

use crate::edge::weight;
use crate::order::Order;
use crate::walk::Walk;
use conflict_matrix::{Conflicts, pair_laws};
use sig_base::LONGEST_GREEN;

/// The sum of the weights of all steps of the walk, in seconds; `None` exactly where a step has no edge, as that of a
/// walk of one group has none.
pub fn walk_sum(
    conflicts: &Conflicts,
    order: &Order,
    needs: &[u32; 16],
    cycle: u32,
    walk: &Walk,
) -> Option<i64>
    requires order { IsOrderFor (matrix_of conflicts.now) (order_of order.now) }
    requires needs { AreNeeds (matrix_of conflicts.now) needs.now }
    requires cycle { IsCycle cycle }
    requires groups { All (λ g. g < (matrix_of conflicts.now).groups) walk.now }
    ensures value { result ≡ sum_of (edges_for conflicts.now order.now needs.now cycle) walk.now }
    ensures alone { length walk.now ≡ 1 → result ≡ None }
    ensures walk { IsWalk walk.now }
{
    pair_laws();
    let groups = walk.groups();
    let first = usize::from(groups[0]);
    let mut from = first;
    let mut sum = 0;
    for place in 1..groups.len() {
        let to = usize::from(groups[place]);
        let step = weight(conflicts, order, needs, cycle, from, to)?;
        sum += step;
        from = to;
    }
    let last = weight(conflicts, order, needs, cycle, from, first)?;
    Some(sum + last)
}

/// Whether the walk closes the order: it is of one group for which no green that it may have is enough (its need is then
/// 301, one past the longest green), or each step has an edge, and the weights add up to more than 0.
pub fn closes(
    conflicts: &Conflicts,
    order: &Order,
    needs: &[u32; 16],
    cycle: u32,
    walk: &Walk,
) -> bool
    requires order { IsOrderFor (matrix_of conflicts.now) (order_of order.now) }
    requires needs { AreNeeds (matrix_of conflicts.now) needs.now }
    requires cycle { IsCycle cycle }
    requires groups { All (λ g. g < (matrix_of conflicts.now).groups) walk.now }
    ensures { IsTrue result ↔ IsClosedBy conflicts.now order.now needs.now cycle walk.now }
{
    let groups = walk.groups();
    if groups.len() == 1 {
        return needs[usize::from(groups[0])] > LONGEST_GREEN;
    }
    match walk_sum(conflicts, order, needs, cycle, walk) {
        Some(sum) => sum > 0,
        None => false,
    }
}

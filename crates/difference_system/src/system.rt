//! The edges of an order, for the greens that are needed and the cycle.
ghost use Rattle.std.specs.Prelude.{◌≡◌, ◌<◌, None, MatchOption};
ghost use Rattle.std.proofs.Props.{props};
ghost use Rattle.sig_base.specs.Times.{IsCycle};
ghost use Rattle.conflict_matrix.specs.Conflicts.{matrix_of};
ghost use Rattle.constraint_cycles.specs.Order.{order_of, edges_for};
ghost use Rattle.constraint_cycles.specs.Marks.{IsOrderFor};
ghost use Rattle.constraint_cycles.specs.Edge.{AreNeeds};
ghost use Rattle.difference_system.specs.Edge.{IsSystem, IsEdgeFrom};

use crate::edge::Edge;
use conflict_matrix::{Conflicts, pair_laws};
use constraint_cycles::{Order, edge_law, root_law, weight};

/// An order of some conflicts, with the greens that are needed and the cycle in seconds.
#[derive(Clone, Copy)]
pub struct System<'a> {
    conflicts: &'a Conflicts,
    order: &'a Order,
    needs: &'a [u32; 16],
    cycle: u32,
    pub ghost made: { IsOrderFor (matrix_of conflicts.now) (order_of order.now) },
    pub ghost needed: { AreNeeds (matrix_of conflicts.now) needs.now },
    pub ghost lasting: { IsCycle cycle },
    pub ghost regular: { IsSystem (matrix_of conflicts.now).groups cycle
        (edges_for conflicts.now order.now needs.now cycle) } by { Prim.hlevel props },
}

impl<'a> System<'a> {
    ghost use Rattle.difference_system.specs.System.{groups_of, edges_of};

    pub fn new(
        conflicts: &'a Conflicts,
        order: &'a Order,
        needs: &'a [u32; 16],
        cycle: u32,
    ) -> System<'a>
        requires order { IsOrderFor (matrix_of conflicts.now) (order_of order.now) }
        requires needs { AreNeeds (matrix_of conflicts.now) needs.now }
        requires cycle { IsCycle cycle }
        ensures groups { groups_of result ≡ (matrix_of conflicts.now).groups }
        ensures cycle { result.cycle ≡ cycle }
        ensures edges { edges_of result ≡ edges_for conflicts.now order.now needs.now cycle }
    {
        pair_laws();
        root_law();
        edge_law();
        System {
            conflicts,
            order,
            needs,
            cycle,
        }
    }

    pub fn groups(&self) -> usize
        ensures { result ≡ groups_of self.now }
    {
        self.conflicts.groups()
    }

    /// The edge from one group to another; `None` exactly where there is none.
    pub fn edge(&self, from: usize, to: usize) -> Option<Edge>
        requires from { from < groups_of self.now }
        requires to { to < groups_of self.now }
        ensures { MatchOption result (edges_of self.now from to ≡ None)
            (IsEdgeFrom (groups_of self.now) (edges_of self.now) from to) }
    {
        let Some(seconds) = weight(self.conflicts, self.order, self.needs, self.cycle, from, to)
        else {
            return None;
        };
        Some(Edge {
            from: from as u8,
            to: to as u8,
            weight: seconds as i32,
        })
    }
}

//! The edges of a difference system, gathered once.
ghost use Rattle.std.specs.Prelude.{◌≡◌, ◌+◌, ◌*◌, ◌<◌, ◌≤◌, ◌++◌, ◌∷◌, [], length};
ghost use Rattle.difference_system.specs.Edge.{AreEdgesBelow};

use crate::edge::Edge;
use crate::system::System;

/// The edges of a system that begin at other groups than group 0.
#[derive(Clone, Copy)]
pub struct EdgeList<'a> {
    system: System<'a>,
    edges: [Edge; 240],
    count: usize,
    pub ghost few: { count ≤ 240 },
}

impl<'a> EdgeList<'a> {
    ghost use Rattle.difference_system.specs.System.{groups_of, edges_of};
    ghost use Rattle.difference_system.specs.EdgeList.{edges_in, IsWhole};

    fn new(system: System<'a>) -> EdgeList<'a>
        ensures system { result.system ≡ system.entry }
        ensures edges { edges_in result ≡ [] }
    {
        EdgeList {
            system,
            edges: [Edge {
                from: 0,
                to: 0,
                weight: 0,
            }; 240],
            count: 0,
        }
    }

    fn push(&mut self, edge: Edge)
        requires { length (edges_in self.old) < 240 }
        ensures system { self.new.system ≡ self.old.system }
        ensures edges { edges_in self.new ≡ edges_in self.old ++ edge ∷ [] }
    {
        self.edges[self.count] = edge;
        self.count += 1;
    }

    fn push_row(&mut self, from: usize)
        requires from { from < groups_of self.old.system }
        requires edges { AreEdgesBelow (groups_of self.old.system) (edges_of self.old.system)
            from (edges_in self.old) }
        requires few { length (edges_in self.old) + 16 ≤ 16 * from }
        ensures system { self.new.system ≡ self.old.system }
        ensures edges { AreEdgesBelow (groups_of self.old.system) (edges_of self.old.system)
            (from + 1) (edges_in self.new) }
        ensures few { length (edges_in self.new) + 16 ≤ 16 * (from + 1) }
    {
        for to in 0..self.system.groups() {
            if let Some(edge) = self.system.edge(from, to) {
                self.push(edge);
            }
        }
    }

    /// The edges of a system that begin at other groups than group 0.
    pub fn gather(system: System<'a>) -> EdgeList<'a>
        ensures system { result.system ≡ system.entry }
        ensures whole { IsWhole result }
    {
        let mut list = EdgeList::new(system);
        for from in 1..system.groups() {
            list.push_row(from);
        }
        list
    }

    pub fn edges(&self) -> &[Edge]
        ensures { result.now ≡ edges_in self.now }
    {
        &self.edges[..self.count]
    }
}

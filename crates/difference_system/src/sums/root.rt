//! The sums of the root order, whose edges are those of group 0.
ghost use Rattle.std.specs.Prelude.{◌≡◌, ◌≤◌, ◌<◌, ℕ, pos, ◌+ℤ◌, Some, IsSome, MatchBool, MatchOption};
ghost use Rattle.sig_base.specs.Times.{IsCycle};
ghost use Rattle.conflict_matrix.specs.Conflicts.{matrix_of};
ghost use Rattle.constraint_cycles.specs.Edge.{AreNeeds, IsWeight};
ghost use Rattle.constraint_cycles.specs.Marks.{IsOrderFor, root_marks};
ghost use Rattle.constraint_cycles.specs.Order.{order_of, marks_of, edges_for};
ghost use Rattle.difference_system.specs.System.{groups_of, edges_of};
ghost use Rattle.difference_system.specs.Sums.{cell_of, IsSummed};
ghost use Rattle.difference_system.specs.Spokes.{AreSpokesBelow, AreWeights, HasNoCycle, HasCycle, IsRootSum};

use crate::sums::matrix::Sums;
use crate::system::System;
use conflict_matrix::{Conflicts, pair_laws};
use constraint_cycles::{Order, edge_law, root_law};

/// The weights in seconds of the edges from group 0 to each group, and back; 0 for group 0 itself.
#[derive(Clone, Copy)]
pub struct Spokes {
    out: [i16; 16],
    home: [i16; 16],
}

/// The weight of an edge in seconds.
pub fn seconds(system: &System, from: usize, to: usize) -> i16
    requires from { from < groups_of system.now }
    requires to { to < groups_of system.now }
    requires there { IsSome (edges_of system.now from to) }
    ensures value { edges_of system.now from to ≡ Some result }
    ensures weight { IsWeight result }
{
    system.edge(from, to).unwrap().weight as i16
}

fn gather(system: &System) -> Spokes
    ensures { AreSpokesBelow (edges_of system.now) (groups_of system.now) result }
{
    let mut spokes = Spokes {
        out: [0; 16],
        home: [0; 16],
    };
    for group in 1..system.groups() {
        spokes.out[group] = seconds(system, 0, group);
        spokes.home[group] = seconds(system, group, 0);
    }
    spokes
}

/// A group to which and back from which group 0 has a positive cycle.
fn first_cycle(spokes: &Spokes, groups: usize) -> Option<usize>
    requires few { groups ≤ 16 }
    requires weights { AreWeights groups spokes.now }
    ensures { MatchOption result (HasNoCycle groups spokes.now) (HasCycle groups spokes.now) }
{
    for group in 0..groups {
        if spokes.out[group] + spokes.home[group] > 0 {
            return Some(group);
        }
    }
    None
}

fn way(home: i16, out: i16, is_own: bool) -> i16
    requires home { IsWeight home }
    requires out { IsWeight out }
    ensures { MatchBool is_own (result ≡ pos 0) (result ≡ home +ℤ out) }
{
    if is_own { 0 } else { home + out }
}

fn root_row(spokes: &Spokes, from: usize, groups: usize) -> [i16; 16]
    requires few { groups ≤ 16 }
    requires from { from < groups }
    requires weights { AreWeights groups spokes.now }
    ensures { (v : ℕ) → v < groups → IsRootSum spokes.now from v (cell_of result v) }
{
    let mut row = [0; 16];
    for to in 0..groups {
        row[to] = way(spokes.home[from], spokes.out[to], from == to);
    }
    row
}

/// The sums of the root order; `None` where no starts meet it.
pub fn root_sums(
    conflicts: &Conflicts,
    order: &Order,
    needs: &[u32; 16],
    cycle: u32,
) -> Option<Sums>
    requires order { IsOrderFor (matrix_of conflicts.now) (order_of order.now) }
    requires needs { AreNeeds (matrix_of conflicts.now) needs.now }
    requires cycle { IsCycle cycle }
    requires root { marks_of order.now ≡ root_marks (matrix_of conflicts.now) }
    ensures { IsSummed (matrix_of conflicts.now).groups
        (edges_for conflicts.now order.now needs.now cycle) result }
{
    pair_laws();
    root_law();
    edge_law();
    let groups = conflicts.groups();
    let spokes = gather(&System::new(conflicts, order, needs, cycle));
    if let Some(_) = first_cycle(&spokes, groups) {
        return None;
    }
    let mut rows = [[0; 16]; 16];
    for from in 0..groups {
        rows[from] = root_row(&spokes, from, groups);
    }
    Some(Sums::of_rows(rows))
}

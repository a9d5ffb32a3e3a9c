//! The sums from group 0 as starts.
ghost use Rattle.std.specs.Prelude.{◌≤◌, ◌<◌, ℕ};
ghost use Rattle.constraint_cycles.specs.Edge.{Edges};
ghost use Rattle.constraint_cycles.specs.Starts.{MeetsEdges};
ghost use Rattle.difference_system.specs.Edge.{IsSystem};
ghost use Rattle.difference_system.specs.Solution.{AreLeastStarts, AreStartsWithin};
ghost use Rattle.difference_system.specs.Sums.{asks_of, sum_of, AreSums, IsStart, AreRowStarts};

use crate::sums::matrix::Sums;

/// The least starts in seconds that meet the edges: the sum from group 0 to each group, and 0 past the number of groups.
pub fn row_starts(sums: &Sums, groups: usize) -> [u32; 16]
    requires few { groups ≤ 16 }
    requires row { (g : ℕ) → g < groups → IsStart (sum_of sums.now 0 g) }
    ensures row { AreRowStarts groups (sum_of sums.now 0) result }
    ensures least { (cycle : ℕ) (edge : Edges) → IsSystem groups cycle edge
        → AreSums groups (asks_of edge) (sum_of sums.now)
        → AreLeastStarts (MeetsEdges edge) result }
    ensures within { (cycle : ℕ) (edge : Edges) → IsSystem groups cycle edge
        → AreSums groups (asks_of edge) (sum_of sums.now)
        → AreStartsWithin groups cycle result }
{
    let mut starts = [0u32; 16];
    for group in 0..groups {
        starts[group] = sums.rows()[0][group] as u32;
    }
    starts
}

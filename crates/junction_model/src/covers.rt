ghost use Rattle.std.specs.Prelude.{◌≡◌, ◌≤◌, ◌<◌, ◌^◌};
ghost use Rattle.conflict_matrix.specs.Conflicts.{matrix_of};
ghost use Rattle.conflict_matrix.specs.Pairs.{free_pairs, tree_cover_of};

use conflict_matrix::Conflicts;

/// The number of conflicting pairs without group 0.
fn free_pair_count(conflicts: &Conflicts) -> usize
    ensures value { result ≡ free_pairs (matrix_of conflicts.now) }
    ensures few { result ≤ 105 }
{
    let mut free = 0;
    for number in 0..conflicts.pair_count() {
        if conflicts.pair(number).0 != 0 {
            free += 1;
        }
    }
    free
}

/// The greatest number of nodes that the search tree of one cycle can have.
pub fn tree_cover(conflicts: &Conflicts) -> u128
    ensures value { result ≡ tree_cover_of (matrix_of conflicts.now) }
    ensures small { result < 2 ^ 118 }
{
    let items = free_pair_count(conflicts) + conflicts.links().len();
    2u128.pow(items as u32 + 1) - 1
}

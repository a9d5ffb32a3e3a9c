//! The numbers of the conflicting pairs.
ghost use Rattle.std.specs.Prelude.{◌≡◌, ◌+◌, ◌*◌, ◌<◌, ◌≤◌, ◌++◌};
ghost use Rattle.conflict_matrix.specs.Matrix.{IsMatrix, unlinked};
ghost use Rattle.conflict_matrix.specs.Pairs.{row_of};

use crate::sizes::{CELLS, MOST_PAIRS, NO_CONFLICT};
use sig_base::MOST_GROUPS;

/// The pairs by number, and the number of a pair in the cells of both of its senses.
#[derive(Clone, Copy, Debug)]
pub struct Numbering {
    pub count: usize,
    pub pairs: [(u8, u8); MOST_PAIRS],
    pub numbers: [u8; CELLS],
}

impl Numbering {
    ghost use Rattle.conflict_matrix.specs.Numbering.{with_pair, HasRoom, numbered_pairs, IsNumberedBelow, IsNumbering};

    fn push(&mut self, i: usize, j: usize)
        requires i { i < 16 }
        requires j { j < 16 }
        requires room { self.old.count < 120 }
        ensures pair { self.new ≡ with_pair self.old i j }
        ensures room { HasRoom self.old }
    {
        let number = self.count as u8;
        self.pairs[self.count] = (i as u8, j as u8);
        self.numbers[MOST_GROUPS * i + j] = number;
        self.numbers[MOST_GROUPS * j + i] = number;
        self.count += 1;
    }

    fn push_row(&mut self, groups: usize, cells: &[u8; CELLS], i: usize)
        requires matrix { IsMatrix (unlinked groups cells.now) }
        requires i { i < groups }
        requires few { 2 * self.old.count + i * i ≤ 31 * i }
        requires numbered { IsNumberedBelow (unlinked groups cells.now) self.old (16 * i) }
        ensures few { 2 * self.new.count + (i + 1) * (i + 1) ≤ 31 * (i + 1) }
        ensures numbered { IsNumberedBelow (unlinked groups cells.now) self.new (16 * (i + 1)) }
        ensures row { numbered_pairs self.new
            ≡ numbered_pairs self.old ++ row_of (unlinked groups cells.now) i }
    {
        for j in i + 1..groups {
            if cells[MOST_GROUPS * i + j] != NO_CONFLICT {
                self.push(i, j);
            }
        }
    }

    pub fn new(groups: usize, cells: &[u8; CELLS]) -> Numbering
        requires { IsMatrix (unlinked groups cells.now) }
        ensures { IsNumbering (unlinked groups cells.now) result }
    {
        let mut numbering = Numbering {
            count: 0,
            pairs: [(0, 0); MOST_PAIRS],
            numbers: [0; CELLS],
        };
        for i in 0..groups {
            numbering.push_row(groups, cells, i);
        }
        numbering
    }
}

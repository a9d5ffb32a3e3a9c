//! The table's cells, filled from entries.
ghost use Rattle.std.specs.Prelude.{◌≡◌};
ghost use Rattle.conflict_matrix.specs.Filling.{IsFilled, IsWritable, with_entry};
ghost use Rattle.std.specs.List.{All};

use crate::entry::Entry;
use crate::sizes::{CELLS, NO_CONFLICT};
use sig_base::MOST_GROUPS;

fn write_entry(cells: &mut [u8; CELLS], entry: &Entry)
    requires { IsWritable entry.now }
    ensures { cells.new ≡ with_entry cells.old entry.now }
{
    let a = entry.a as usize;
    let b = entry.b as usize;
    cells[MOST_GROUPS * b + a] = entry.b_to_a as u8;
    cells[MOST_GROUPS * a + b] = entry.a_to_b as u8;
}

pub fn filled_cells(entries: &[Entry]) -> [u8; CELLS]
    requires { All IsWritable entries.now }
    ensures { IsFilled entries.now result }
{
    let mut cells = [NO_CONFLICT; CELLS];
    for entry in entries {
        write_entry(&mut cells, entry);
    }
    cells
}

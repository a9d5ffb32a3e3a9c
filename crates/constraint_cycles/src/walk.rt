ghost use Rattle.std.specs.Prelude.{◌≡◌, ◌↔◌, IsTrue, IsSome, IfSome};
ghost use Rattle.constraint_cycles.specs.Walk.{IsWalk};

use std::marker::Model;

/// A closed walk of 1 to 16 groups, whose last step goes from its last group to its first. Contracts see
/// it as the list of its groups.
#[derive(Clone, Copy, Debug, PartialEq, Eq)]
pub struct Walk {
    cells: [u8; 16],
    len: usize,
}

impl Model for Walk {
    ghost use Rattle.std.specs.Prelude.{ℕ, List, take, length};
    ghost use Rattle.sig_base.specs.Padding.{IsPadded, padded_to};
    ghost use Rattle.constraint_cycles.specs.Walk.{IsWalk};

    ghost Value = { List ℕ };

    ghost view = { λ w. take w.len w.cells };

    ghost invariant = { λ w. IsWalk (take w.len w.cells) × IsPadded 16 w.cells w.len };

    ghost inverse = { λ groups. record { cells = padded_to 16 groups; len = length groups } };

    ghost use Rattle.constraint_cycles.specs.WalkFields.{fields_back};

    ghost inverse_ok = { λ w h. fields_back w h.1 };
}

impl Walk {
    /// The walk along these groups; `None` exactly where their number is outside 1 to 16 or a group is above 15.
    pub fn new(groups: &[u8]) -> Option<Walk>
        ensures exactly { IsSome result ↔ IsWalk groups.now }
        ensures value { IfSome result (λ walk. walk ≡ groups.now) }
    {
        if !are_walk(groups) {
            return None;
        }
        let mut cells = [0; 16];
        cells[..groups.len()].copy_from_slice(groups);
        Some(Walk {
            cells,
            len: groups.len(),
        })
    }

    /// The groups that the walk passes, in its order; there are 1 to 16, each below 16.
    pub fn groups(&self) -> &[u8]
        ensures value { result.now ≡ self.now }
        ensures walk { IsWalk self.now }
    {
        &self.cells[..self.len]
    }
}

fn are_walk(groups: &[u8]) -> bool
    ensures { IsTrue result ↔ IsWalk groups.now }
{
    !groups.is_empty() && groups.len() <= 16 && groups.iter().all(|group| *group < 16)
}

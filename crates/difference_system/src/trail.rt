//! The groups along which a start was found.
ghost use Rattle.std.specs.Prelude.{◌≡◌, ◌==◌, ◌<◌, ◌≤◌, ◌∷◌, [], length, reverse};
ghost use Rattle.std.specs.List.{IsDistinct, list_any};

use std::marker::Model;

fn is_among(groups: &[u8], group: u8) -> bool
    ensures { result ≡ list_any (λ g. group == g) (reverse groups.now) }
{
    groups.iter().rev().any(|g| group == *g)
}

/// The groups along which edges lead from group 0, each once. Contracts see it as their list, the last one first.
#[derive(Clone, Copy)]
pub struct Trail {
    cells: [u8; 16],
    len: usize,
}

impl Model for Trail {
    ghost use Rattle.std.specs.Prelude.{ℕ, List, take, length, reverse};
    ghost use Rattle.sig_base.specs.Padding.{IsPadded, padded_to};

    ghost Value = { List ℕ };

    ghost view = { λ t. reverse (take t.len t.cells) };

    ghost invariant = { λ t. IsPadded 16 t.cells t.len };

    ghost inverse = { λ groups. record { cells = padded_to 16 (reverse groups); len = length groups } };

    ghost use Rattle.difference_system.specs.TrailFields.{fields_back};

    ghost inverse_ok = { fields_back };
}

impl Trail {
    /// The trail of one group alone.
    pub fn of(group: u8) -> Trail
        ensures value { result ≡ group ∷ [] }
        ensures once { IsDistinct (λ g h. g == h) result }
    {
        let mut cells = [0; 16];
        cells[0] = group;
        Trail { cells, len: 1 }
    }

    /// The trail of group 0 alone.
    pub fn new() -> Trail
        ensures { result ≡ 0 ∷ [] }
    {
        Trail {
            cells: [0; 16],
            len: 1,
        }
    }

    /// One more group at the end.
    pub fn push(&mut self, group: u8)
        requires { length self.old < 16 }
        ensures { self.new ≡ group ∷ self.old }
    {
        self.cells[self.len] = group;
        self.len += 1;
    }

    /// The groups in their order from group 0.
    pub fn groups(&self) -> &[u8]
        ensures value { result.now ≡ reverse self.now }
        ensures few { length result.now ≤ 16 }
    {
        &self.cells[..self.len]
    }

    pub fn holds(&self, group: u8) -> bool
        ensures { result ≡ list_any (λ g. group == g) self.now }
    {
        is_among(self.groups(), group)
    }
}

ghost use Rattle.std.specs.Prelude.{◌≡◌, ◌+◌, ◌∷◌, ◌++◌, [], ◌<◌, ◌≤◌, length, IfSome, slice_get, take};
ghost use Rattle.conflict_matrix.specs.Conflicts.{matrix_of};
ghost use Rattle.cycle_orders.specs.DueItems.{AreDueItems, AreFreePairsBelow, AreOpenBelowLink};

use conflict_matrix::{Conflicts, MOST_LINKS, MOST_PAIRS, pair_laws};
use constraint_cycles::root_law;
use std::marker::Model;

const MOST_ITEMS: usize = MOST_PAIRS + MOST_LINKS;

/// Items in the order in which they are decided. Contracts see it as the list of their numbers.
#[derive(Drop)]
pub struct Items {
    items: [u8; MOST_ITEMS],
    count: usize,
}

impl Model for Items {
    ghost use Rattle.std.specs.Prelude.{ℕ, List, ◌≡◌, ◌≤◌, length, take};

    ghost Value = { List ℕ };

    ghost view = { λ d. take d.count d.items };

    ghost invariant = { λ d. (d.count ≤ 132) × (length d.items ≡ 132) };
}

impl Items {
    fn none() -> Items
        ensures { result ≡ [] }
    {
        Items {
            items: [0; MOST_ITEMS],
            count: 0,
        }
    }

    /// One more item at the end.
    pub fn push(&mut self, item: u8)
        requires { length self.old < 132 }
        ensures { self.new ≡ self.old ++ item ∷ [] }
    {
        self.items[self.count] = item;
        self.count += 1;
    }

    /// The first items, so many.
    pub fn keep(&mut self, count: usize)
        requires { count ≤ length self.old }
        ensures { self.new ≡ take count self.old }
    {
        self.count = count;
    }

    /// The item of a number, or `None` past the last one.
    pub fn get(&self, number: usize) -> Option<usize>
        ensures value { result ≡ slice_get self.now number }
        ensures small { IfSome result (λ item. item < 256) }
        ensures few { length self.now ≤ 132 }
    {
        if number < self.count {
            Some(usize::from(self.items[number]))
        } else {
            None
        }
    }

    /// The pairs of the group with lower ones, group 0 aside.
    fn push_pairs(&mut self, conflicts: &Conflicts, group: usize)
        requires group { group < (matrix_of conflicts.now).groups }
        requires some { 1 ≤ group }
        requires before { AreFreePairsBelow (matrix_of conflicts.now) (1, group) self.old }
        ensures { AreFreePairsBelow (matrix_of conflicts.now) (1, group + 1) self.new }
    {
        pair_laws();
        for lower in 1..group {
            if let Some(number) = conflicts.pair_number(lower, group) {
                self.push(number as u8);
            }
        }
    }

    fn push_links(&mut self, conflicts: &Conflicts)
        requires { AreOpenBelowLink (matrix_of conflicts.now) 0 self.old }
        ensures { AreDueItems (matrix_of conflicts.now) self.new }
    {
        pair_laws();
        root_law();
        for link in 0..conflicts.links().len() {
            self.push((conflicts.pair_count() + link) as u8);
        }
    }

    /// The due items: the free pairs by their second group and then their first one, and behind them the links.
    pub fn of(conflicts: &Conflicts) -> Items
        ensures { AreDueItems (matrix_of conflicts.now) result }
    {
        pair_laws();
        root_law();
        let mut items = Items::none();
        for group in 1..conflicts.groups() {
            items.push_pairs(conflicts, group);
        }
        items.push_links(conflicts);
        items
    }
}

ghost use Rattle.std.specs.Prelude.{◌≡◌, ◌≤◌, ◌<◌, length, Some, take, drop, replicate, slice_get, slice_set};
ghost use Rattle.conflict_matrix.specs.Conflicts.{matrix_of};
ghost use Rattle.constraint_cycles.specs.declared.mark.Mark.TheVariants.{Open};
ghost use Rattle.constraint_cycles.specs.Marks.{IsOrderFor, KeepsFixed, root_marks};

use crate::mark::Mark;
use conflict_matrix::{Conflicts, MOST_LINKS, MOST_PAIRS, pair_laws};

const MOST_ITEMS: usize = MOST_PAIRS + MOST_LINKS;

/// A mark for each item: the conflicting pairs by their numbers, and then the links. The pairs with group 0 have the
/// lowest numbers; their marks are fixed, and stay `First`.
#[derive(Clone, Copy, Debug, PartialEq, Eq)]
pub struct Order {
    marks: [Mark; MOST_ITEMS],
    count: usize,
    fixed: usize,
    pub ghost few: { count ≤ 132 },
    pub ghost unused: { drop count marks ≡ drop count (replicate 132 Open) },
    pub ghost held: { KeepsFixed (record { marks = take count marks; fixed = fixed }) },
}

impl Order {
    ghost use Rattle.constraint_cycles.specs.Order.{order_of, marks_of};

    /// The order of these conflicts with every mark open that isn't fixed.
    pub fn root(conflicts: &Conflicts) -> Order
        ensures made { IsOrderFor (matrix_of conflicts.now) (order_of result) }
        ensures marks { marks_of result ≡ root_marks (matrix_of conflicts.now) }
    {
        pair_laws();
        let pairs = conflicts.pair_count();
        let links = conflicts.links().len();
        let mut marks = [Mark::Open; MOST_ITEMS];
        let mut fixed = 0;
        for pair in 0..pairs {
            if conflicts.pair(pair).0 == 0 {
                marks[pair] = Mark::First;
                fixed += 1;
            }
        }
        Order {
            marks,
            count: pairs + links,
            fixed,
        }
    }

    /// The mark of the item of a number.
    pub fn mark(&self, item: usize) -> Mark
        requires { item < length (marks_of self.now) }
        ensures { slice_get (marks_of self.now) item ≡ Some result }
    {
        self.marks[item]
    }

    /// Marks an item that isn't fixed.
    pub fn set(&mut self, item: usize, mark: Mark)
        requires below { item < length (marks_of self.old) }
        requires unfixed { (order_of self.old).fixed ≤ item }
        ensures marks { marks_of self.new ≡ slice_set (marks_of self.old) item mark }
        ensures fixed { (order_of self.new).fixed ≡ (order_of self.old).fixed }
    {
        self.marks[item] = mark;
    }
}

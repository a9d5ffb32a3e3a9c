ghost use Rattle.std.specs.Prelude.{◌<◌, ◌≤◌, IsTrue, IfOk};
ghost use Rattle.conflict_matrix.specs.Conflicts.{matrix_of};
ghost use Rattle.conflict_matrix.specs.Pairs.{fixed_pairs};
ghost use Rattle.constraint_cycles.specs.Marks.{IsOrderFor, item_count};
ghost use Rattle.constraint_cycles.specs.Order.{order_of};

use conflict_matrix::{Conflicts, pair_laws};
use constraint_cycles::{Mark, Order, root_law};
use std::test::Fail;

/// Whether the item isn't one of the fixed pairs, which come first.
fn is_unfixed(conflicts: &Conflicts, item: usize) -> bool
    requires { item < item_count (matrix_of conflicts.now) }
    ensures { IsTrue result → fixed_pairs (matrix_of conflicts.now) ≤ item }
{
    root_law();
    pair_laws();
    if item >= conflicts.pair_count() {
        return true;
    }
    conflicts.pair(item).0 != 0
}

/// The root order with these marks of the last items.
pub fn marked(conflicts: &Conflicts, marks: &[Mark]) -> Result<Order, Fail>
    ensures { IfOk result (λ order. IsOrderFor (matrix_of conflicts.now) (order_of order)) }
{
    let mut order = Order::root(conflicts);
    let count = conflicts.pair_count() + conflicts.links().len();
    if marks.len() > count {
        return Err(Fail::new("more marks than items"));
    }
    let first = count - marks.len();
    for (k, mark) in marks.iter().enumerate() {
        let item = first + k;
        if !is_unfixed(conflicts, item) {
            return Err(Fail::new("a mark of a fixed pair"));
        }
        order.set(item, *mark);
    }
    Ok(order)
}

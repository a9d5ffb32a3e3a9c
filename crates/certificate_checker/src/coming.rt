ghost use Rattle.std.specs.Prelude.{◌≡◌, ◌<◌, ◌≤◌, ◌∷◌, ◌++◌, [], length, MatchOption};
ghost use Rattle.constraint_cycles.specs.Order.{order_of, marks_of};
ghost use Rattle.constraint_cycles.specs.Tree.{DecidesOpen};
ghost use Rattle.certificate_checker.specs.Below.{order_with, views_below};

use constraint_cycles::{Mark, Node, Order, order_law};

/// Each of 120 pairs and 12 links is decided at most once on the way down, and leaves one order behind. A Split of the
/// last item puts two more.
const MOST_ORDERS: usize = 134;

/// The orders of the subtrees that are still to come, the next one last. Contracts see the next one first.
#[derive(Drop)]
pub struct Coming {
    orders: [Order; MOST_ORDERS],
    len: usize,
    pub ghost few: { len ≤ 134 },
}

impl Coming {
    ghost use Rattle.certificate_checker.specs.Coming.{coming_of};

    /// The order of the root alone.
    pub fn new(root: Order) -> Coming
        ensures { coming_of result ≡ order_of root ∷ [] }
    {
        Coming {
            orders: [root; MOST_ORDERS],
            len: 1,
        }
    }

    /// Takes the next order; `None` exactly where there is none.
    pub fn pop(&mut self) -> Option<Order>
        ensures { MatchOption result (coming_of self.old ≡ [])
            (λ order. coming_of self.old ≡ order_of order ∷ coming_of self.new) }
    {
        if self.len == 0 {
            return None;
        }
        self.len -= 1;
        Some(self.orders[self.len])
    }

    /// Puts an order before the others.
    fn push(&mut self, order: Order)
        requires { length (coming_of self.old) < 134 }
        ensures { coming_of self.new ≡ order_of order ∷ coming_of self.old }
    {
        self.orders[self.len] = order;
        self.len += 1;
    }

    /// Puts the orders below a node of this order before the others.
    pub fn put_below(&mut self, order: Order, node: &Node)
        requires decides { DecidesOpen (marks_of order) node.now }
        requires room { length (coming_of self.old) ≤ 132 }
        ensures { coming_of self.new ≡ views_below (order_of order) node.now ++ coming_of self.old }
    {
        order_law();
        if let Node::Split(item) = node {
            let mut first = order;
            first.set(usize::from(*item), Mark::First);
            let mut second = order;
            second.set(usize::from(*item), Mark::Second);
            self.push(second);
            self.push(first);
        }
    }
}

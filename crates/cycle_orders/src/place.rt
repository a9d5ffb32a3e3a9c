//! The place of a search, or of a tree that is read: the orders that are still to come, and the difference system of the
//! one at hand.
//!
//! The order at hand decides the first of the items, as many as the place is deep, and is kept once: to go down a mark is
//! set, to go back it is unset. A search goes down by the due items; where a tree is read, its Splits name the items.
//! Behind each mark that is First the order waits that has it Second. The closure stands one level higher until the order
//! at hand is entered, which is done only where starts meet it.
ghost use Rattle.std.specs.Prelude.{◌≡◌, ◌≢◌, ◌≤◌, ◌<◌, ◌++◌, ◌∷◌, [], length, IfOk, IfSome, IsNone, IsSome, MatchOption, MatchBool};
ghost use Rattle.sig_base.specs.Times.{IsCycle};
ghost use Rattle.conflict_matrix.specs.Conflicts.{matrix_of};
ghost use Rattle.constraint_cycles.specs.Edge.{AreNeeds};
ghost use Rattle.constraint_cycles.specs.Marks.{IsOrderFor, IsDecided, Refines, root_marks};
ghost use Rattle.constraint_cycles.specs.Order.{order_of, marks_of};
ghost use Rattle.constraint_cycles.specs.Tree.{orders_below};
ghost use Rattle.constraint_cycles.specs.declared.node.Node.TheVariants.{Split};
ghost use Rattle.difference_system.specs.Solution.{IsSolvable, AreLeastStarts, AreStartsWithin, IfStarts, IfWalk};
ghost use Rattle.cycle_orders.specs.Due.{IsDue, IsOpenItem};
ghost use Rattle.cycle_orders.specs.DueItems.{AreDueItems};
ghost use Rattle.cycle_orders.specs.Place.{IsMoved, order_at, coming_later, MeetsHere, ClosesHere, with_needs, with_items};
ghost use Rattle.cycle_orders.specs.declared.place.Standing.TheVariants.{At};
ghost use Rattle.cycle_orders.specs.Way.{IsWay, orders_along, orders_above, orders_waiting};

use crate::items::Items;
use conflict_matrix::Conflicts;
use constraint_cycles::{Mark, Order, Walk, order_law};
use difference_system::{Closure, Solved};
use sig_base::NoMemory;
use std::alloc::Global;
use std::marker::Model;

/// Where the closure stands.
#[derive(Clone, Copy, PartialEq, Eq)]
pub enum Standing {
    /// At the order above the one at hand; for the root order at that one.
    Above,
    /// At the order at hand.
    At,
    /// No order is to come.
    Past,
}

/// The orders to come, the one at hand first.
#[derive(Drop)]
pub struct Place {
    closure: Closure,
    items: Items,
    order: Order,
    depth: usize,
    standing: Standing,
}

impl Model for Place {
    ghost use Rattle.std.specs.Prelude.{◌≡◌};
    ghost use Rattle.conflict_matrix.specs.Conflicts.{matrix_of};
    ghost use Rattle.constraint_cycles.specs.Order.{order_of, marks_of};
    ghost use Rattle.cycle_orders.specs.Place.{PlaceView, IsPlace, place_of};

    ghost Value = { PlaceView };

    ghost view = { λ p. place_of p.closure p.items (marks_of p.order) p.depth p.standing };

    ghost invariant = { λ p. IsPlace p.closure p.items (order_of p.order) p.depth p.standing };
}

/// Goes on to the next order that waits, and answers whether there is one.
fn turn(items: &Items, depth: &mut usize, order: &mut Order, closure: &mut Closure) -> bool
    requires made { IsOrderFor closure.old.conflicts (order_of order.old) }
    requires way { IsWay items.now closure.old.conflicts (marks_of order.old) depth.old }
    requires within { depth.old ≤ length items.now }
    requires above { closure.old.orders ≡ orders_above items.now (marks_of order.old) depth.old }
    ensures made { IsOrderFor closure.old.conflicts (order_of order.new) }
    ensures way { IsWay items.now closure.old.conflicts (marks_of order.new) depth.new }
    ensures within { depth.new ≤ length items.now }
    ensures waiting { MatchBool result
        (orders_waiting items.now (marks_of order.old) depth.old
        ≡ marks_of order.new ∷ orders_waiting items.now (marks_of order.new) depth.new)
        (orders_waiting items.now (marks_of order.old) depth.old ≡ []) }
    ensures above { closure.new.orders ≡ orders_above items.now (marks_of order.new) depth.new }
    ensures needs { closure.new.needs ≡ closure.old.needs }
    ensures cycle { closure.new.cycle ≡ closure.old.cycle }
    ensures conflicts { closure.new.conflicts ≡ closure.old.conflicts }
{
    while *depth > 0 {
        let Some(item) = items.get(*depth - 1) else {
            unreachable!();
        };
        match order.mark(item) {
            Mark::First => {
                order.set(item, Mark::Second);
                return true;
            }
            _ => {}
        }
        order.set(item, Mark::Open);
        *depth -= 1;
        if *depth > 0 {
            closure.undo();
        }
    }
    false
}

impl Place {
    /// At the root order of the conflicts, with the due items.
    pub fn new(
        alloc: Global,
        conflicts: &Conflicts,
        needs: &[u32; 16],
        cycle: u32,
    ) -> Result<Place, NoMemory>
        requires needs { AreNeeds (matrix_of conflicts.now) needs.now }
        requires cycle { IsCycle cycle }
        ensures conflicts { IfOk result (λ p. p.conflicts ≡ matrix_of conflicts.now) }
        ensures needs { IfOk result (λ p. p.needs ≡ needs.now) }
        ensures cycle { IfOk result (λ p. p.cycle ≡ cycle) }
        ensures coming { IfOk result (λ p. p.coming ≡ root_marks (matrix_of conflicts.now) ∷ []) }
        ensures due { IfOk result (λ p. AreDueItems (matrix_of conflicts.now) p.items) }
    {
        Ok(Place {
            closure: Closure::new(alloc, conflicts, needs, cycle)?,
            items: Items::of(conflicts),
            order: Order::root(conflicts),
            depth: 0,
            standing: Standing::Above,
        })
    }

    /// Replaces the needs.
    pub fn raise(&mut self, needs: &[u32; 16])
        requires { AreNeeds self.old.conflicts needs.now }
        ensures { self.new ≡ with_needs self.old needs.now }
    {
        self.closure.raise(needs);
    }

    /// The item to decide next; `None` exactly where the order at hand decides each item.
    pub fn due(&self) -> Option<usize>
        requires some { 1 ≤ length self.now.coming }
        requires due { AreDueItems self.now.conflicts self.now.items }
        ensures value { result ≡ self.now.next }
        ensures due { MatchOption result (IsDecided (order_at self.now))
            (IsDue self.now.conflicts (order_at self.now)) }
        ensures below_root { Refines (root_marks self.now.conflicts) (order_at self.now) }
        ensures small { IfSome result (λ item. item < 256) }
    {
        self.items.get(self.depth)
    }

    /// Takes the closure back to the order above the one at hand.
    fn leave(&mut self)
        ensures moved { IsMoved self.old self.new self.old.coming }
        ensures left { self.new.standing ≢ At }
    {
        if !matches!(self.standing, Standing::At) {
            return;
        }
        if self.depth > 0 {
            self.closure.undo();
        }
        self.standing = Standing::Above;
    }

    /// Takes the closure to the order at hand where starts meet it; else gives a walk that closes it.
    pub fn enter(&mut self) -> Option<Walk>
        requires { 1 ≤ length self.old.coming }
        ensures moved { IsMoved self.old self.new self.old.coming }
        ensures next { self.new.next ≡ self.old.next }
        ensures closed { IfSome result (ClosesHere self.old) }
        ensures entered { IsNone result → self.new.standing ≡ At }
        ensures solvable { IsNone result → IsSolvable (MeetsHere self.old) }
    {
        if matches!(self.standing, Standing::At) {
            return self.closure.closing();
        }
        if self.depth == 0 {
            self.standing = Standing::At;
            return self.closure.closing();
        }
        let Some(item) = self.items.get(self.depth - 1) else {
            unreachable!();
        };
        if let Some(walk) = self.closure.decide(item, self.order.mark(item)) {
            return Some(walk);
        }
        self.standing = Standing::At;
        None
    }

    /// The least starts that meet the order at hand.
    pub fn starts(&self) -> [u32; 16]
        requires some { 1 ≤ length self.now.coming }
        requires entered { self.now.standing ≡ At }
        requires solvable { IsSolvable (MeetsHere self.now) }
        ensures least { AreLeastStarts (MeetsHere self.now) result }
        ensures within { AreStartsWithin self.now.conflicts.groups self.now.cycle result }
    {
        match self.closure.answer() {
            Solved::Starts(starts) => starts,
            Solved::Walk(_) => unreachable!(),
        }
    }

    /// Solves the order at hand.
    pub fn solve(&mut self) -> Solved
        requires { 1 ≤ length self.old.coming }
        ensures moved { IsMoved self.old self.new self.old.coming }
        ensures next { self.new.next ≡ self.old.next }
        ensures least { IfStarts result (AreLeastStarts (MeetsHere self.old)) }
        ensures within { IfStarts result
            (AreStartsWithin self.old.conflicts.groups self.old.cycle) }
        ensures entered { IfStarts result (λ _. self.new.standing ≡ At) }
        ensures walk { IfWalk result (ClosesHere self.old) }
    {
        if let Some(walk) = self.enter() {
            return Solved::Walk(walk);
        }
        self.closure.answer()
    }

    /// Decides the next item as First, and goes down to that order; the one that has it Second waits.
    pub fn descend(&mut self)
        requires entered { self.old.standing ≡ At }
        requires next { IsSome self.old.next }
        requires free { IfSome self.old.next (IsOpenItem (order_at self.old)) }
        ensures { IfSome self.old.next (λ item. IsMoved self.old self.new
            (orders_below (order_at self.old) (Split item) ++ coming_later self.old)) }
    {
        order_law();
        let Some(item) = self.items.get(self.depth) else {
            unreachable!();
        };
        self.order.set(item, Mark::First);
        self.depth += 1;
        self.standing = Standing::Above;
    }

    /// Decides an open item in the same way, whichever was the next one.
    pub fn decide(&mut self, item: u8)
        requires entered { self.old.standing ≡ At }
        requires free { IsOpenItem (order_at self.old) item }
        ensures { IsMoved (with_items self.old self.new.items) self.new
            (orders_below (order_at self.old) (Split item) ++ coming_later self.old) }
    {
        self.items.keep(self.depth);
        self.items.push(item);
        self.descend();
    }

    /// Goes on to the next order that waits, if there is one.
    pub fn go_on(&mut self)
        requires { 1 ≤ length self.old.coming }
        ensures { IsMoved self.old self.new (coming_later self.old) }
    {
        self.leave();
        let more = turn(
            &self.items,
            &mut self.depth,
            &mut self.order,
            &mut self.closure,
        );
        self.standing = if more {
            Standing::Above
        } else {
            Standing::Past
        };
    }
}

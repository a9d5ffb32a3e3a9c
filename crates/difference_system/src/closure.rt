//! The difference systems of the orders on the way down from the root order, with undo.
ghost use Rattle.std.specs.Prelude.{ℕ, ◌≡◌, ◌≢◌, ◌≤◌, ◌↔◌, Some, length, IfOk, IfSome, IsNone, MatchOption, slice_get};
ghost use Rattle.sig_base.specs.First.{IsFirst};
ghost use Rattle.sig_base.specs.Times.{IsCycle};
ghost use Rattle.conflict_matrix.specs.Conflicts.{matrix_of};
ghost use Rattle.constraint_cycles.specs.declared.mark.Mark.TheVariants.{Open};
ghost use Rattle.constraint_cycles.specs.Closing.{IsUnserved};
ghost use Rattle.constraint_cycles.specs.Edge.{AreNeeds};
ghost use Rattle.constraint_cycles.specs.Order.{marks_of};
ghost use Rattle.difference_system.specs.Closure.{begun, decided, undone, raised, top_of, MeetsTop, ClosesTop};
ghost use Rattle.difference_system.specs.Decision.{IsClosedWith};
ghost use Rattle.difference_system.specs.Level.{IsLevel};
ghost use Rattle.difference_system.specs.Solution.{IsStarts, IfStarts, IfWalk, IsWalkOf, IsSolvable, AreLeastStarts, AreStartsWithin, IsClosingCircuit};

use crate::level::{Level, NO_EDGES, begin_ways, grown, renew};
use crate::solved::Solved;
use crate::sums::{Decision, Sums, decide_item};
use crate::ways::Ways;
use conflict_matrix::{Conflicts, pair_laws};
use constraint_cycles::{Mark, Walk, growth_law};
use sig_base::NoMemory;
use std::alloc::Global;
use std::marker::Model;

/// One for the root order, one for each of 120 pairs, and one for each of 12 links.
const MOST_LEVELS: usize = 133;

/// The orders from the root order on, each of which decides one more item, for the greens that are needed and the
/// cycle in seconds. Contracts see the last decision's order first, the root order last.
#[derive(Drop)]
pub struct Closure {
    conflicts: Conflicts,
    needs: [u32; 16],
    cycle: u32,
    levels: Vec<Level>,
    ways: Ways,
}

impl Model for Closure {
    ghost use Rattle.std.specs.Prelude.{map};
    ghost use Rattle.std.specs.Vec.{vec_capacity};
    ghost use Rattle.conflict_matrix.specs.Conflicts.{matrix_of};
    ghost use Rattle.difference_system.specs.Closure.{ClosureView};
    ghost use Rattle.difference_system.specs.Level.{marks_at, decisions_of, AreLevels};

    ghost Value = { ClosureView };

    ghost view = { λ c. record {
      conflicts = matrix_of c.conflicts;
      needs = c.needs;
      cycle = c.cycle;
      orders = map marks_at (decisions_of c.levels.items);
    } };

    ghost invariant = { λ c. AreLevels (matrix_of c.conflicts) c.needs c.cycle c.levels.items (vec_capacity c.levels) };
}

impl Closure {
    /// At the root order of the conflicts, with room for every order that a call can come to.
    pub fn new(
        alloc: Global,
        conflicts: &Conflicts,
        needs: &[u32; 16],
        cycle: u32,
    ) -> Result<Closure, NoMemory>
        requires needs { AreNeeds (matrix_of conflicts.now) needs.now }
        requires cycle { IsCycle cycle }
        ensures { IfOk result (λ c. c ≡ begun (matrix_of conflicts.now) needs.now cycle) }
    {
        let mut levels = Vec::with_capacity(alloc, MOST_LEVELS)?;
        let root = Level::root(conflicts, needs, cycle);
        let mut ways = Ways::none();
        begin_ways(&mut ways, conflicts, &root.order, needs, cycle);
        levels.push(root)?;
        Ok(Closure {
            conflicts: *conflicts,
            needs: *needs,
            cycle,
            levels,
            ways,
        })
    }

    fn top(&self) -> &Level
        ensures marks { marks_of result.now.order ≡ top_of self.now }
        ensures level { IsLevel self.now.conflicts self.now.needs self.now.cycle result.now }
    {
        &self.levels[self.levels.len() - 1]
    }

    /// Decides an open item.
    pub fn insert(&mut self, item: usize, mark: Mark)
        requires was_open { slice_get (top_of self.old) item ≡ Some Open }
        requires decides { mark ≢ Open }
        requires solvable { IsSolvable (MeetsTop self.old) }
        ensures { self.new ≡ decided self.old item mark }
    {
        if let Some(walk) = self.decide(item, mark) {
            self.push_closed(item, mark, walk);
        }
    }

    /// Decides an open item in an order that the walk closes.
    fn push_closed(&mut self, item: usize, mark: Mark, walk: Walk)
        requires was_open { slice_get (top_of self.old) item ≡ Some Open }
        requires decides { mark ≢ Open }
        requires closed { IsClosedWith self.old.conflicts (top_of (decided self.old item mark))
            self.old.needs self.old.cycle walk }
        ensures { self.new ≡ decided self.old item mark }
    {
        pair_laws();
        let order = self.top().order_with(item, mark);
        let level = Level {
            order,
            item,
            edges: NO_EDGES,
            closing: Some(walk),
            sums: Sums::of_rows([[0; 16]; 16]),
        };
        match self.levels.push(level) {
            Ok(()) => {}
            Err(_) => unreachable!(),
        }
    }

    /// Decides an open item where starts meet the order that decides it; else gives a walk that closes that order, and
    /// decides nothing.
    pub fn decide(&mut self, item: usize, mark: Mark) -> Option<Walk>
        requires was_open { slice_get (top_of self.old) item ≡ Some Open }
        requires decides { mark ≢ Open }
        ensures kept { IfSome result (λ _. self.new ≡ self.old) }
        ensures closed { IfSome result (IsClosedWith self.old.conflicts
            (top_of (decided self.old item mark)) self.old.needs self.old.cycle) }
        ensures is_decided { IsNone result → self.new ≡ decided self.old item mark }
        ensures solvable { IsNone result → IsSolvable (MeetsTop self.new) }
    {
        pair_laws();
        growth_law();
        let top = self.top();
        if let Some(walk) = top.closing {
            return Some(walk);
        }
        let order = top.order_with(item, mark);
        let edges = match decide_item(
            &self.ways,
            &self.conflicts,
            &top.order,
            &order,
            &self.needs,
            self.cycle,
            &top.sums,
            item,
            mark,
        ) {
            Decision::Closed(walk) => return Some(walk),
            Decision::Open(edges) => edges,
        };
        let level = grown(
            &self.conflicts,
            &self.needs,
            self.cycle,
            &top.order,
            &top.sums,
            order,
            item,
            edges,
        );
        level.rests(&self.conflicts, &self.needs, self.cycle);
        self.ways.put_both(edges);
        match self.levels.push(level) {
            Ok(()) => {}
            Err(_) => unreachable!(),
        }
        None
    }

    /// Takes the last decision back.
    pub fn undo(&mut self)
        requires { 2 ≤ length self.old.orders }
        ensures { self.new ≡ undone self.old }
    {
        if let Some(level) = self.levels.pop() {
            self.ways.drop_both(level.edges);
        }
    }

    /// Replaces the needs.
    pub fn raise(&mut self, needs: &[u32; 16])
        requires { AreNeeds self.old.conflicts needs.now }
        ensures { self.new ≡ raised self.old needs.now }
    {
        self.needs = *needs;
        renew(
            &mut self.levels,
            &mut self.ways,
            &self.conflicts,
            needs,
            self.cycle,
        );
    }

    /// A walk that closes the order of the last decision; `None` exactly where some starts meet it.
    pub fn closing(&self) -> Option<Walk>
        ensures { MatchOption result (IsSolvable (MeetsTop self.now)) (ClosesTop self.now) }
    {
        let top = self.top();
        top.rests(&self.conflicts, &self.needs, self.cycle);
        top.closing
    }

    /// Solves the order of the last decision, with the answer of `solve`: the same starts, or a walk of the same kind.
    pub fn answer(&self) -> Solved
        ensures exactly { IsStarts result ↔ IsSolvable (MeetsTop self.now) }
        ensures least { IfStarts result (AreLeastStarts (MeetsTop self.now)) }
        ensures within { IfStarts result
            (AreStartsWithin self.now.conflicts.groups self.now.cycle) }
        ensures walk { IfWalk result (IsClosingCircuit (ClosesTop self.now)) }
        ensures unserved { (g : ℕ)
            → IsFirst (IsUnserved self.now.conflicts self.now.needs) self.now.conflicts.groups g
            → IsWalkOf result g }
    {
        self.top().solved(&self.conflicts, &self.needs, self.cycle)
    }
}

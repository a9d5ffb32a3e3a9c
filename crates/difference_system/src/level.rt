//! One level of a closure: an order with the sums of its edges, or with a walk that closes it. Where no starts meet an order,
//! none meet one that decides more items, so a level above a closed one is closed too, by the same walk.
ghost use Rattle.std.specs.Prelude.{ℕ, List, ◌≡◌, ◌≢◌, ◌↔◌, None, Some, IfSome, IsNone, All, map, slice_get, slice_set};
ghost use Rattle.sig_base.specs.First.{IsFirst};
ghost use Rattle.sig_base.specs.Times.{IsCycle};
ghost use Rattle.conflict_matrix.specs.Conflicts.{matrix_of};
ghost use Rattle.constraint_cycles.specs.declared.mark.Mark.TheVariants.{Open};
ghost use Rattle.constraint_cycles.specs.Closing.{IsUnserved};
ghost use Rattle.constraint_cycles.specs.Edge.{AreNeeds};
ghost use Rattle.constraint_cycles.specs.Marks.{IsOrderFor, root_marks};
ghost use Rattle.constraint_cycles.specs.Order.{order_of, marks_of, IsClosedBy, IsMetBy};
ghost use Rattle.difference_system.specs.Level.{IsLevel, IsNext, AreDecisions, decision_of, decisions_of};
ghost use Rattle.difference_system.specs.Decision.{IsClosedWith, IsMetWith, LeavesOpen};
ghost use Rattle.difference_system.specs.Sums.{sum_of};
ghost use Rattle.difference_system.specs.Solution.{IsStarts, IfStarts, IfWalk, IsWalkOf, IsSolvable, AreLeastStarts, AreStartsWithin, IsClosingCircuit};

use crate::solution::{first_unserved, solve};
use crate::solved::Solved;
use crate::sums::{Decision, Sums, TwoEdges, decide_item, root_sums, row_starts};
use crate::ways::{NO_WAY, Ways};
use conflict_matrix::{Conflicts, pair_laws};
use constraint_cycles::{
    Mark, Order, Walk, edge_law, exclusion_law, growth_law, order_law, root_law, weight,
};

/// An order, the item that it decided last, the two edges of that item, and the sums of all edges.
#[derive(Clone, Copy)]
pub struct Level {
    pub order: Order,
    /// 0 in the root order, which decided none.
    pub item: usize,
    /// Those of a closed order aren't told.
    pub edges: TwoEdges,
    /// The walk that closes the order; `None` where starts meet it.
    pub closing: Option<Walk>,
    /// Those of a closed order say nothing.
    pub sums: Sums,
}

/// No edges.
pub const NO_EDGES: TwoEdges = TwoEdges {
    from: 0,
    to: 0,
    forth: NO_WAY,
    back: NO_WAY,
};

/// The walk of `solve`, where no starts meet the order.
fn solved_walk(conflicts: &Conflicts, order: &Order, needs: &[u32; 16], cycle: u32) -> Walk
    requires order { IsOrderFor (matrix_of conflicts.now) (order_of order.now) }
    requires needs { AreNeeds (matrix_of conflicts.now) needs.now }
    requires cycle { IsCycle cycle }
    requires closed { (starts : List ℕ) → ¬ IsMetBy conflicts.now order.now needs.now cycle starts }
    ensures { IsClosedWith (matrix_of conflicts.now) (marks_of order.now) needs.now cycle result }
{
    match solve(conflicts, order, needs, cycle) {
        Solved::Walk(walk) => walk,
        Solved::Starts(_) => unreachable!(),
    }
}

/// The sums of the root order; `None` where no starts meet it.
fn met_root_sums(
    conflicts: &Conflicts,
    order: &Order,
    needs: &[u32; 16],
    cycle: u32,
) -> Option<Sums>
    requires order { IsOrderFor (matrix_of conflicts.now) (order_of order.now) }
    requires needs { AreNeeds (matrix_of conflicts.now) needs.now }
    requires cycle { IsCycle cycle }
    requires root { marks_of order.now ≡ root_marks (matrix_of conflicts.now) }
    ensures met { IfSome result (IsMetWith (matrix_of conflicts.now) (marks_of order.now) needs.now
        cycle) }
    ensures closed { IsNone result
        → (starts : List ℕ) → ¬ IsMetBy conflicts.now order.now needs.now cycle starts }
{
    if let Some(_) = first_unserved(conflicts, needs) {
        return None;
    }
    root_sums(conflicts, order, needs, cycle)
}

/// The level of an order with one more item decided, by edges which leave starts.
pub fn grown(
    conflicts: &Conflicts,
    needs: &[u32; 16],
    cycle: u32,
    below: &Order,
    sums: &Sums,
    order: Order,
    item: usize,
    edges: TwoEdges,
) -> Level
    requires needs { AreNeeds (matrix_of conflicts.now) needs.now }
    requires cycle { IsCycle cycle }
    requires below { IsOrderFor (matrix_of conflicts.now) (order_of below.now) }
    requires met { IsMetWith (matrix_of conflicts.now) (marks_of below.now) needs.now cycle
        sums.now }
    requires made { IsOrderFor (matrix_of conflicts.now) (order_of order) }
    requires open { LeavesOpen (matrix_of conflicts.now) (marks_of order) needs.now cycle
        (sum_of sums.now) edges }
    ensures level { IsLevel (matrix_of conflicts.now) needs.now cycle result }
    ensures decision { decision_of result ≡ (marks_of order, item) }
    ensures met { result.closing ≡ None }
{
    pair_laws();
    root_law();
    edge_law();
    Level {
        order,
        item,
        edges,
        closing: None,
        sums: sums.with_edges(conflicts.groups(), edges),
    }
}

/// Keeps the edges of group 0, and no others.
pub fn begin_ways(
    ways: &mut Ways,
    conflicts: &Conflicts,
    order: &Order,
    needs: &[u32; 16],
    cycle: u32,
)
    requires order { IsOrderFor (matrix_of conflicts.now) (order_of order.now) }
    requires needs { AreNeeds (matrix_of conflicts.now) needs.now }
    requires cycle { IsCycle cycle }
{
    pair_laws();
    *ways = Ways::none();
    for group in 1..conflicts.groups() {
        if let Some(out) = weight(conflicts, order, needs, cycle, 0, group) {
            ways.put(0, group, out as i16);
        }
        if let Some(home) = weight(conflicts, order, needs, cycle, group, 0) {
            ways.put(group, 0, home as i16);
        }
    }
}

impl Level {
    /// The level of the root order.
    pub fn root(conflicts: &Conflicts, needs: &[u32; 16], cycle: u32) -> Level
        requires needs { AreNeeds (matrix_of conflicts.now) needs.now }
        requires cycle { IsCycle cycle }
        ensures level { IsLevel (matrix_of conflicts.now) needs.now cycle result }
        ensures decision { decision_of result ≡ (root_marks (matrix_of conflicts.now), 0) }
    {
        let order = Order::root(conflicts);
        match met_root_sums(conflicts, &order, needs, cycle) {
            Some(sums) => Level {
                order,
                item: 0,
                edges: NO_EDGES,
                closing: None,
                sums,
            },
            None => {
                let walk = solved_walk(conflicts, &order, needs, cycle);
                Level::closed(order, 0, walk)
            }
        }
    }

    /// The level of a closed order.
    pub fn closed(order: Order, item: usize, walk: Walk) -> Level
        ensures order { result.order ≡ order }
        ensures item { result.item ≡ item }
        ensures walk { result.closing ≡ Some walk }
    {
        Level {
            order,
            item,
            edges: NO_EDGES,
            closing: Some(walk),
            sums: Sums::of_rows([[0; 16]; 16]),
        }
    }

    /// The order with one more item decided.
    pub fn order_with(&self, item: usize, mark: Mark) -> Order
        requires was_open { slice_get (marks_of self.now.order) item ≡ Some Open }
        ensures marks { marks_of result ≡ slice_set (marks_of self.now.order) item mark }
        ensures fixed { (order_of result).fixed ≡ (order_of self.now.order).fixed }
    {
        order_law();
        let mut order = self.order;
        order.set(item, mark);
        order
    }

    /// The level of the order with one more item decided.
    pub fn next(
        &self,
        ways: &Ways,
        conflicts: &Conflicts,
        needs: &[u32; 16],
        cycle: u32,
        item: usize,
        mark: Mark,
    ) -> Level
        requires level { IsLevel (matrix_of conflicts.now) needs.now cycle self.now }
        requires needs { AreNeeds (matrix_of conflicts.now) needs.now }
        requires cycle { IsCycle cycle }
        requires was_open { slice_get (marks_of self.now.order) item ≡ Some Open }
        requires decides { mark ≢ Open }
        ensures level { IsLevel (matrix_of conflicts.now) needs.now cycle result }
        ensures decision { decision_of result
            ≡ (slice_set (marks_of self.now.order) item mark, item) }
    {
        growth_law();
        let order = self.order_with(item, mark);
        if let Some(walk) = self.closing {
            return Level::closed(order, item, walk);
        }
        match decide_item(
            ways,
            conflicts,
            &self.order,
            &order,
            needs,
            cycle,
            &self.sums,
            item,
            mark,
        ) {
            Decision::Open(edges) => grown(
                conflicts,
                needs,
                cycle,
                &self.order,
                &self.sums,
                order,
                item,
                edges,
            ),
            Decision::Closed(walk) => Level::closed(order, item, walk),
        }
    }

    /// The level of the same order, made anew from the one below it.
    fn again(
        &self,
        below: &Level,
        ways: &Ways,
        conflicts: &Conflicts,
        needs: &[u32; 16],
        cycle: u32,
    ) -> Level
        requires below { IsLevel (matrix_of conflicts.now) needs.now cycle below.now }
        requires needs { AreNeeds (matrix_of conflicts.now) needs.now }
        requires cycle { IsCycle cycle }
        requires next { IsNext (decision_of below.now) (decision_of self.now) }
        ensures level { IsLevel (matrix_of conflicts.now) needs.now cycle result }
        ensures decision { decision_of result ≡ decision_of self.now }
    {
        let mark = self.order.mark(self.item);
        below.next(ways, conflicts, needs, cycle, self.item, mark)
    }

    /// Some starts meet an order that isn't closed. The method does nothing: a caller that rests on it calls it.
    pub fn rests(&self, conflicts: &Conflicts, needs: &[u32; 16], cycle: u32)
        requires level { IsLevel (matrix_of conflicts.now) needs.now cycle self.now }
        requires needs { AreNeeds (matrix_of conflicts.now) needs.now }
        requires cycle { IsCycle cycle }
        ensures { self.now.closing ≡ None
            → IsSolvable (IsMetBy conflicts.now self.now.order needs.now cycle) }
    {
        let _solved = self.solved(conflicts, needs, cycle);
    }

    /// The order solved: the least starts in seconds that meet it, from its sums, or the walk that closes it.
    pub fn solved(&self, conflicts: &Conflicts, needs: &[u32; 16], cycle: u32) -> Solved
        requires level { IsLevel (matrix_of conflicts.now) needs.now cycle self.now }
        requires needs { AreNeeds (matrix_of conflicts.now) needs.now }
        requires cycle { IsCycle cycle }
        ensures exactly { IsStarts result
            ↔ IsSolvable (IsMetBy conflicts.now self.now.order needs.now cycle) }
        ensures least { IfStarts result
            (AreLeastStarts (IsMetBy conflicts.now self.now.order needs.now cycle)) }
        ensures within { IfStarts result
            (AreStartsWithin (matrix_of conflicts.now).groups cycle) }
        ensures walk { IfWalk result
            (IsClosingCircuit (IsClosedBy conflicts.now self.now.order needs.now cycle)) }
        ensures unserved { (g : ℕ)
            → IsFirst (IsUnserved (matrix_of conflicts.now) needs.now)
            (matrix_of conflicts.now).groups g
            → IsWalkOf result g }
        ensures met { self.now.closing ≡ None → IsStarts result }
    {
        pair_laws();
        root_law();
        edge_law();
        exclusion_law();
        match self.closing {
            Some(walk) => Solved::Walk(walk),
            None => Solved::Starts(row_starts(&self.sums, conflicts.groups())),
        }
    }
}

/// Makes every level anew, from the root order's on.
pub fn renew(
    levels: &mut [Level],
    ways: &mut Ways,
    conflicts: &Conflicts,
    needs: &[u32; 16],
    cycle: u32,
)
    requires needs { AreNeeds (matrix_of conflicts.now) needs.now }
    requires cycle { IsCycle cycle }
    requires decisions { AreDecisions (matrix_of conflicts.now) (decisions_of levels.old) }
    ensures each { All (IsLevel (matrix_of conflicts.now) needs.now cycle) levels.new }
    ensures decisions { map decision_of levels.new ≡ map decision_of levels.old }
{
    levels[0] = Level::root(conflicts, needs, cycle);
    begin_ways(ways, conflicts, &levels[0].order, needs, cycle);
    for place in 1..levels.len() {
        levels[place] = levels[place].again(&levels[place - 1], ways, conflicts, needs, cycle);
        ways.put_both(levels[place].edges);
    }
}

ghost use Rattle.std.specs.Prelude.{◌≡◌, ◌<◌, ◌≤◌, IfSome};
ghost use Rattle.sig_base.specs.Times.{IsCycle};
ghost use Rattle.conflict_matrix.specs.Conflicts.{matrix_of};
ghost use Rattle.constraint_cycles.specs.Order.{order_of, marks_of, edges_for};
ghost use Rattle.constraint_cycles.specs.Marks.{IsOrderFor};
ghost use Rattle.constraint_cycles.specs.Edge.{longest_cycle, greatest_weight, AreNeeds, IsWeight, mark_between, pair_weight, origin_weight, group_weight, link_weight, linked_weight, greater};

use crate::mark::Mark;
use crate::order::Order;
use conflict_matrix::{Conflicts, Link};

fn mark_between(conflicts: &Conflicts, order: &Order, u: usize, v: usize) -> Mark
    requires order { IsOrderFor (matrix_of conflicts.now) (order_of order.now) }
    requires u { u < (matrix_of conflicts.now).groups }
    requires v { v < (matrix_of conflicts.now).groups }
    ensures { result ≡ mark_between (matrix_of conflicts.now) (marks_of order.now) u v }
{
    match conflicts.pair_number(u, v) {
        Some(pair) => order.mark(pair),
        None => Mark::Open,
    }
}

fn pair_weight(mark: Mark, u_is_lower: bool, green_and_intergreen: u32, cycle: u32) -> Option<i64>
    requires some { 1 ≤ green_and_intergreen }
    requires most { green_and_intergreen ≤ greatest_weight }
    requires cycle { cycle ≤ longest_cycle }
    ensures value { result ≡ pair_weight mark u_is_lower green_and_intergreen cycle }
    ensures range { IfSome result IsWeight }
{
    let asked = i64::from(green_and_intergreen);
    match (mark, u_is_lower) {
        (Mark::Open, _) => None,
        (Mark::First, true) | (Mark::Second, false) => Some(asked),
        (Mark::First, false) | (Mark::Second, true) => Some(asked - i64::from(cycle)),
    }
}

fn origin_weight(cycle: u32, u: usize, v: usize) -> Option<i64>
    requires { cycle ≤ longest_cycle }
    ensures value { result ≡ origin_weight cycle u v }
    ensures range { IfSome result IsWeight }
{
    if u == v {
        None
    } else if u == 0 {
        Some(0)
    } else if v == 0 {
        Some(1 - i64::from(cycle))
    } else {
        None
    }
}

/// The weight from group `u` to group `v` without the links.
fn group_weight(
    conflicts: &Conflicts,
    order: &Order,
    needs: &[u32; 16],
    cycle: u32,
    u: usize,
    v: usize,
) -> Option<i64>
    requires order { IsOrderFor (matrix_of conflicts.now) (order_of order.now) }
    requires needs { AreNeeds (matrix_of conflicts.now) needs.now }
    requires cycle { IsCycle cycle }
    requires u { u < (matrix_of conflicts.now).groups }
    requires v { v < (matrix_of conflicts.now).groups }
    ensures value { result
        ≡ group_weight (matrix_of conflicts.now) (marks_of order.now) needs.now cycle u v }
    ensures range { IfSome result IsWeight }
{
    match conflicts.intergreen(u, v) {
        Some(intergreen) => {
            let mark = mark_between(conflicts, order, u, v);
            pair_weight(mark, u < v, needs[u] + intergreen, cycle)
        }
        None => origin_weight(cycle, u, v),
    }
}

fn link_weight(mark: Mark, u_leads: bool, wait: u32, cycle: u32) -> Option<i64>
    requires wait { wait < cycle }
    requires cycle { cycle ≤ longest_cycle }
    ensures value { result ≡ link_weight mark u_leads wait cycle }
    ensures range { IfSome result IsWeight }
{
    let wait = i64::from(wait);
    let cycle = i64::from(cycle);
    match (mark, u_leads) {
        (Mark::Open, _) => None,
        (Mark::First, true) => Some(wait),
        (Mark::First, false) => Some(-wait),
        (Mark::Second, true) => Some(wait - cycle),
        (Mark::Second, false) => Some(cycle - wait),
    }
}

fn linked_weight(mark: Mark, link: &Link, cycle: u32, u: usize, v: usize) -> Option<i64>
    requires some { 1 ≤ cycle }
    requires cycle { cycle ≤ longest_cycle }
    ensures value { result ≡ linked_weight mark link.now cycle u v }
    ensures range { IfSome result IsWeight }
{
    let wait = link.after % cycle;
    if u == link.leader as usize && v == link.follower as usize {
        link_weight(mark, true, wait, cycle)
    } else if u == link.follower as usize && v == link.leader as usize {
        link_weight(mark, false, wait, cycle)
    } else {
        None
    }
}

fn greater(a: Option<i64>, b: Option<i64>) -> Option<i64>
    requires a { IfSome a IsWeight }
    requires b { IfSome b IsWeight }
    ensures value { result ≡ greater a b }
    ensures range { IfSome result IsWeight }
{
    match (a, b) {
        (None, b) => b,
        (a, None) => a,
        (Some(a), Some(b)) => Some(if a < b { b } else { a }),
    }
}

/// The weight of the edge from group `u` to group `v`, in seconds: the least difference of their starts that the
/// order asks for, at the green that each group needs and the cycle. `None` exactly where there is no edge.
pub fn weight(
    conflicts: &Conflicts,
    order: &Order,
    needs: &[u32; 16],
    cycle: u32,
    u: usize,
    v: usize,
) -> Option<i64>
    requires order { IsOrderFor (matrix_of conflicts.now) (order_of order.now) }
    requires needs { AreNeeds (matrix_of conflicts.now) needs.now }
    requires cycle { IsCycle cycle }
    requires u { u < (matrix_of conflicts.now).groups }
    requires v { v < (matrix_of conflicts.now).groups }
    ensures value { result ≡ edges_for conflicts.now order.now needs.now cycle u v }
    ensures range { IfSome result IsWeight }
{
    let pairs = conflicts.pair_count();
    let links = conflicts.links();
    let mut most = group_weight(conflicts, order, needs, cycle, u, v);
    for k in 0..links.len() {
        let asked = linked_weight(order.mark(pairs + k), &links[k], cycle, u, v);
        most = greater(most, asked);
    }
    most
}

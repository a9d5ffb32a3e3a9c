ghost use Rattle.std.specs.Prelude.{ℕ, ◌≡◌, ◌≤◌, ◌||◌, not, slice_index};
ghost use Rattle.constraint_cycles.specs.Marks.{IsOrderFor};
ghost use Rattle.constraint_cycles.specs.Order.{order_of, marks_of};
ghost use Rattle.constraint_cycles.specs.Tree.{is_visited};
ghost use Rattle.plan_certificate.specs.Ranges.{IsNodeAmong};
ghost use Rattle.certificate_checker.specs.Basis.{basis_of, IsBasis};
ghost use Rattle.certificate_checker.specs.NodeFault.{names_open, sum_fault, walk_fault, node_fault};

use crate::basis::Basis;
use crate::rule::Rule;
use constraint_cycles::{Mark, Node, Order, Walk, walk_sum};
use sig_base::LONGEST_GREEN;

fn names_open(basis: &Basis, order: &Order, item: usize) -> bool
    requires { IsOrderFor (basis_of basis.now).conflicts (order_of order.now) }
    ensures { result ≡ names_open (marks_of order.now) item }
{
    let items = basis.conflicts.pair_count() + basis.conflicts.links().len();
    item < items && order.mark(item) == Mark::Open
}

/// Whether an Unvisited node stands before the next node.
pub fn seen_after(seen: bool, node: &Node) -> bool
    ensures { result ≡ (seen || not (is_visited node.now)) }
{
    seen || matches!(node, Node::Unvisited)
}

/// The rule that a walk of this sum breaks.
fn sum_fault(sum: Option<i64>) -> Option<Rule>
    ensures { result ≡ sum_fault sum }
{
    match sum {
        Some(sum) if sum > 0 => None,
        Some(_) => Some(Rule::Sum),
        None => Some(Rule::Edge),
    }
}

/// The rule that a walk breaks at this order.
fn walk_fault(basis: &Basis, order: &Order, walk: &Walk) -> Option<Rule>
    requires basis { IsBasis (basis_of basis.now) }
    requires order { IsOrderFor (basis_of basis.now).conflicts (order_of order.now) }
    requires within { IsNodeAmong (basis_of basis.now).conflicts.groups (Node.Closed walk.now) }
    ensures { result ≡ walk_fault (basis_of basis.now) (marks_of order.now) walk.now }
{
    let groups = walk.groups();
    if groups.len() == 1 {
        return if basis.needs[usize::from(groups[0])] > LONGEST_GREEN {
            None
        } else {
            Some(Rule::Sum)
        };
    }
    let sum = walk_sum(basis.conflicts, order, &basis.needs, basis.cycle, walk);
    sum_fault(sum)
}

/// The first rule that the node breaks at its own order; `seen` tells whether an Unvisited node stands before it.
pub fn node_fault(basis: &Basis, seen: bool, order: &Order, node: &Node) -> Option<Rule>
    requires basis { IsBasis (basis_of basis.now) }
    requires order { IsOrderFor (basis_of basis.now).conflicts (order_of order.now) }
    requires within { IsNodeAmong (basis_of basis.now).conflicts.groups node.now }
    ensures { result ≡ node_fault (basis_of basis.now) seen (marks_of order.now) node.now }
{
    match node {
        Node::Split(item) if !names_open(basis, order, usize::from(*item)) => Some(Rule::Pair),
        Node::Split(_) | Node::Closed(_) if seen => Some(Rule::Unvisited),
        Node::Split(_) => None,
        Node::Closed(walk) => walk_fault(basis, order, walk),
        Node::Unvisited if basis.unfinished => None,
        Node::Unvisited => Some(Rule::Unvisited),
    }
}

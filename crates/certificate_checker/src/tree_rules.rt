//! A tree judged node by node, with the orders that are still to come on a stack of fixed size.
//!
//! The nodes stand in preorder. Each takes the order on top of the stack as its own, and a Split puts the two orders of
//! its item there instead. So the nodes are one whole tree exactly where the stack is empty after the last one and no
//! sooner. A node on the way down has decided one open item for each order that waits behind it, and an item is decided
//! once; so the stack never holds more orders than there are items and two.
ghost use Rattle.std.specs.Prelude.{All, MatchOption};
ghost use Rattle.plan_certificate.specs.Ranges.{IsNodeAmong};
ghost use Rattle.certificate_checker.specs.Basis.{basis_of, IsBasis};
ghost use Rattle.certificate_checker.specs.TreeRules.{NoneBreaks, IsFirstBroken};

use crate::basis::Basis;
use crate::coming::Coming;
use crate::node_rules::{node_fault, seen_after};
use crate::rule::Rule;
use conflict_matrix::pair_laws;
use constraint_cycles::{Node, Order};

/// The first rule that the nodes of a tree break, and its place.
pub fn tree_fault(basis: &Basis, nodes: &[Node]) -> Option<(Rule, usize)>
    requires basis { IsBasis (basis_of basis.now) }
    requires within { All (IsNodeAmong (basis_of basis.now).conflicts.groups) nodes.now }
    ensures { MatchOption result (NoneBreaks (basis_of basis.now) nodes.now)
        (λ found. IsFirstBroken (basis_of basis.now) nodes.now found.0 found.1) }
{
    let mut coming = Coming::new(Order::root(basis.conflicts));
    let mut seen = false;
    for place in 0..nodes.len() {
        let Some(order) = coming.pop() else {
            return Some((Rule::Tree, place));
        };
        let node = &nodes[place];
        if let Some(rule) = node_fault(basis, seen, &order, node) {
            return Some((rule, place));
        }
        coming.put_below(order, node);
        seen = seen_after(seen, node);
    }
    if coming.pop().is_some() {
        return Some((Rule::Tree, nodes.len()));
    }
    if basis.unfinished && !seen {
        return Some((Rule::Unvisited, nodes.len()));
    }
    None
}

ghost use Rattle.std.specs.Prelude.{◌≡◌};
ghost use Rattle.std.specs.List.{list_all};
ghost use Rattle.plan_certificate.specs.Version.{is_of_first, are_of_first, version_of};

use constraint_cycles::{Forest, Node, Tree};

/// The greatest number of a pair, as 16 groups have 120 pairs.
const LAST_PAIR: u8 = 119;

fn is_of_first(node: &Node) -> bool
    ensures { result ≡ is_of_first node.now }
{
    match node {
        Node::Split(item) => *item <= LAST_PAIR,
        Node::Closed(walk) => walk.groups().len() >= 2,
        Node::Unvisited => true,
    }
}

fn is_tree_of_first(tree: &Tree) -> bool
    ensures { result ≡ list_all is_of_first tree.now }
{
    for node in tree.items() {
        if !is_of_first(node) {
            return false;
        }
    }
    true
}

/// Whether the trees may stand in a text of version 1.
pub fn are_of_first(trees: &Forest) -> bool
    ensures { result ≡ are_of_first trees.now }
{
    for tree in trees.items() {
        if !is_tree_of_first(tree) {
            return false;
        }
    }
    true
}

/// The version of the text of these trees.
pub fn version(trees: &Forest) -> u32
    ensures { result ≡ version_of trees.now }
{
    if are_of_first(trees) { 1 } else { 2 }
}

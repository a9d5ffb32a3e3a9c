ghost use Rattle.std.specs.Prelude.{◌≡◌};
ghost use Rattle.constraint_cycles.specs.Tree.{visited_count};
ghost use Rattle.plan_certificate.specs.Certificate.{certificate_of, node_count};

use crate::claim::Claim;
use constraint_cycles::{Forest, Node, Tree};
use plan_model::Plan;
use sig_base::Ratio;

/// A claim on a junction, and what shows it: the plan of the claim, if any, and a tree for each cycle that was
/// searched, from the least cycle upwards.
#[derive(Drop)]
pub struct Certificate {
    /// The trees, by rising cycle.
    pub branches: Forest,
    /// How many nodes the search might visit, over all trees: at least 1 in a text.
    pub budget: u64,
    /// What is claimed.
    pub claim: Claim,
    /// The multiplier that a plan has to meet.
    pub least: Ratio,
    /// The plan that is claimed to be best; of a stopped search the best one that was found, if any.
    pub plan: Option<Plan>,
}

impl Certificate {
    /// The number of Split and Closed nodes in all trees.
    pub fn nodes(&self) -> u128
        ensures { result ≡ node_count (certificate_of self.now) }
    {
        let mut count = 0u128;
        for tree in self.branches.items() {
            count += u128::from(visited(tree));
        }
        count
    }
}

/// The number of Split and Closed nodes in a tree.
fn visited(tree: &Tree) -> u64
    ensures { result ≡ visited_count tree.now }
{
    let mut count = 0;
    for node in tree.items() {
        if !matches!(node, Node::Unvisited) {
            count += 1;
        }
    }
    count
}

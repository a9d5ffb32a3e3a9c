//! What searches answer, as short texts.
use constraint_cycles::{Forest, Node, Tree};
use cycle_orders::Answer;
use plan_model::{FittedPlan, plan_multiplier};
use std::alloc::Global;
use std::test::Fail;

/// The nodes in preorder: the number of an item that is decided, the groups of a walk, or `null`.
pub fn tree_text(alloc: Global, tree: &Tree) -> Result<String, Fail> {
    let mut text = String::new(alloc);
    for node in tree.items() {
        let part = match node {
            Node::Split(item) => format!(in alloc; " {item}")?,
            Node::Closed(walk) => format!(in alloc; " {:?}", walk.groups())?,
            Node::Unvisited => format!(in alloc; " null")?,
        };
        text.push_str(part.as_str())?;
    }
    Ok(text)
}

/// The cycle, the starts, the greens and the multiplier.
pub fn plan_text(alloc: Global, plan: &FittedPlan) -> Result<String, Fail> {
    let multiplier = plan_multiplier(plan);
    let own = plan.plan();
    Ok(format!(in alloc;
        "cycle {} starts {:?} greens {:?} multiplier {}/{}",
        own.cycle(),
        own.starts(),
        own.greens(),
        multiplier.num(),
        multiplier.den()
    )?)
}

/// The plan, or `none`.
pub fn carried_text(alloc: Global, plan: &Option<FittedPlan>) -> Result<String, Fail> {
    match plan {
        Some(plan) => plan_text(alloc, plan),
        None => Ok("none".to_string(alloc)?),
    }
}

/// How many nodes of the tree were visited.
pub fn visited(tree: &Tree) -> usize {
    tree.items()
        .iter()
        .filter(|node| !matches!(node, Node::Unvisited))
        .count()
}

/// How many trees the forest has, and how many of their nodes were visited.
fn sizes(forest: &Forest) -> (usize, usize) {
    let trees = forest.items();
    let mut nodes = 0usize;
    for tree in trees {
        nodes = nodes.saturating_add(visited(tree));
    }
    (trees.len(), nodes)
}

/// How a search over all cycles ended, with its plan, and the sizes of its forest.
pub fn ending(alloc: Global, answer: &Answer) -> Result<(String, (usize, usize)), Fail> {
    match answer {
        Answer::Optimal(plan, forest) => {
            let text = format!(in alloc; "optimal {}", plan_text(alloc, plan)?)?;
            Ok((text, sizes(forest)))
        }
        Answer::Infeasible(forest) => Ok(("infeasible".to_string(alloc)?, sizes(forest))),
        Answer::Stopped(plan, forest) => {
            let text = format!(in alloc; "stopped {}", carried_text(alloc, plan)?)?;
            Ok((text, sizes(forest)))
        }
    }
}

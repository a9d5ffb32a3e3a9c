//! Trims a tree that closes a cycle: what is split and could be closed is closed.
//!
//! The tree is read in preorder, and what is left of it is written beside it, so that both always have the same orders to
//! come. A Closed node stays. Of a Split the order is solved: where a walk closes it, a Closed node takes the Split's
//! place, and the nodes below are skipped; where starts meet it, the Split stays. So no order of a Split is closed in the
//! end, and each node is read once.
ghost use Rattle.std.specs.Prelude.{◌≡◌, ◌∷◌, [], ◌<◌, ◌≤◌, length, drop, IfOk};
ghost use Rattle.sig_base.specs.Times.{IsCycle};
ghost use Rattle.constraint_cycles.specs.Marks.{root_marks};
ghost use Rattle.constraint_cycles.specs.Tree.{AllNodes, visited_count};
ghost use Rattle.least_greens.specs.ForTarget.{ClosesCycleFor};
ghost use Rattle.least_greens.specs.NeedRule.{rule_junction, rule_lanes};
ghost use Rattle.cycle_orders.specs.Lean.{IsLeanFor};
ghost use Rattle.cycle_orders.specs.Trimmed.{IsTrimmed, IsSplitOf};
ghost use Rattle.cycle_orders.specs.Trimming.{IsReading, IsTrimStep, behind_trees};

use crate::needs::needs;
use crate::place::Place;
use constraint_cycles::{Node, Tree, agreeing_law, exclusion_law, growth_law};
use difference_system::Solved;
use least_greens::{NeedClosure, NeedRule, passed_plan_law, rising_law, target_law};
use sig_base::{NoMemory, Target};
use std::alloc::Global;

/// The place behind the tree that begins here.
fn behind_tree(nodes: &[Node], begin: usize) -> usize
    requires { begin ≤ length nodes.now }
    ensures behind { drop result nodes.now ≡ behind_trees 1 (drop begin nodes.now) }
    ensures within { result ≤ length nodes.now }
{
    let mut count: usize = 1;
    let mut next = begin;
    while count > 0 && next < nodes.len() {
        match nodes[next] {
            Node::Split(_) => count += 1,
            _ => count -= 1,
        }
        next += 1;
    }
    next
}

/// Reads the node here, or the whole tree of a Split, writes what is left of it, and answers the place of the next node.
fn trim_node(
    place: &mut Place,
    nodes: &[Node],
    at: usize,
    trimmed: &mut Tree,
) -> Result<usize, NoMemory>
    requires within { at < length nodes.now }
    requires reading { IsReading place.old nodes.now at }
    ensures { IfOk result (λ next.
        IsTrimStep place.old place.new nodes.now at next trimmed.old trimmed.new) }
{
    match nodes[at] {
        Node::Split(item) => match place.solve() {
            Solved::Starts(_) => {
                trimmed.push(Node::Split(item))?;
                place.decide(item);
                return Ok(at + 1);
            }
            Solved::Walk(walk) => {
                trimmed.push(Node::Closed(walk))?;
                place.go_on();
                return Ok(behind_tree(nodes, at));
            }
        },
        Node::Closed(walk) => {
            trimmed.push(Node::Closed(walk))?;
            place.go_on();
            return Ok(at + 1);
        }
        Node::Unvisited => unreachable!(),
    }
}

/// The tree that is left of one which closes the cycle, in seconds, for the target over the rule's lanes: a Split whose own
/// order is closed for the target goes, with all nodes below it, and no other does; a walk that stood stays. So it
/// has no more nodes. Any tree is taken that closes the cycle, whatever items its Splits decide, and so is a cycle outside
/// the junction's limits.
pub fn trim<'j, F: Fn(Target, u32, usize) -> u32 + NeedClosure>(
    alloc: Global,
    rule: &NeedRule<'j, F>,
    tree: &Tree,
    target: Target,
    cycle: u32,
) -> Result<Tree, NoMemory>
    requires cycle { IsCycle cycle }
    requires closes { ClosesCycleFor (rule_junction rule.now) (rule_lanes rule.now) target cycle
        tree.now }
    ensures closes { IfOk result
        (ClosesCycleFor (rule_junction rule.now) (rule_lanes rule.now) target cycle) }
    ensures lean { IfOk result
        (IsLeanFor (rule_junction rule.now) (rule_lanes rule.now) target cycle) }
    ensures still_lean { IfOk result (λ trimmed. (other : Target) →
        IsLeanFor (rule_junction rule.now) (rule_lanes rule.now) other cycle tree.now →
        IsLeanFor (rule_junction rule.now) (rule_lanes rule.now) other cycle trimmed) }
    ensures no_more { IfOk result (λ trimmed. visited_count trimmed ≤ visited_count tree.now) }
    ensures splits { IfOk result (AllNodes (IsSplitOf (rule_junction rule.now).conflicts tree.now)
        (root_marks (rule_junction rule.now).conflicts ∷ [])) }
    ensures trimmed { IfOk result
        (IsTrimmed (rule_junction rule.now) (rule_lanes rule.now) target cycle tree.now) }
{
    target_law();
    rising_law();
    passed_plan_law();
    growth_law();
    agreeing_law();
    exclusion_law();
    let junction = rule.junction();
    junction.rules();
    let needs = needs(rule, target, cycle);
    let mut place = Place::new(alloc, junction.conflicts(), &needs, cycle)?;
    let mut trimmed = Tree::new(alloc);
    let nodes = tree.items();
    let mut next = 0;
    while next < nodes.len() {
        next = trim_node(&mut place, nodes, next, &mut trimmed)?;
    }
    Ok(trimmed)
}

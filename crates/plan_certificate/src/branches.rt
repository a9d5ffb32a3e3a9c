//! Trees from JSON values. `Ok(None)` says that a part is out of its range.
ghost use Rattle.std.specs.Prelude.{◌≡◌, ◌≤◌, ◌-◌, map, option_map, option_and_then, IfOk, IfSome, All};
ghost use Rattle.serde_json.specs.View.{view, members_view};
ghost use Rattle.constraint_cycles.specs.declared.node.Node.TheVariants.{Split, Closed};
ghost use Rattle.plan_certificate.specs.Ranges.{last_item};
ghost use Rattle.plan_certificate.specs.Shape.{list_of};
ghost use Rattle.plan_certificate.specs.Members.{all_of, within, whole_within, walk_of, visited_of, node_of, tree_of, few_trees, forest_under, of_version, branches_under};

use crate::member::{list, member, whole_in};
use crate::version::are_of_first;
use constraint_cycles::{Forest, Node, Tree, Walk};
use serde_json::{Map, Value};
use sig_base::NoMemory;
use std::alloc::Global;

/// The greatest number of an item: 12 links come after 120 pairs.
const LAST_ITEM: u64 = 131;

/// A junction has at most one tree for each cycle.
const MOST_TREES: usize = 300;

fn groups_in(alloc: Global, values: &[Value], greatest: u64) -> Result<Option<Vec<u8>>, NoMemory>
    requires { greatest ≤ 255 }
    ensures numbers { IfOk result (λ o. option_map (λ v. v.items) o
        ≡ all_of (whole_within 0 greatest) (map view values.now)) }
    ensures below { IfOk result (λ o. IfSome o (λ v. All (λ n. n ≤ greatest) v.items)) }
{
    let mut numbers = Vec::new(alloc);
    for value in values {
        let Some(number) = value.as_u64() else {
            return Ok(None);
        };
        if number > greatest {
            return Ok(None);
        }
        numbers.push(number as u8)?;
    }
    Ok(Some(numbers))
}

fn walk_in(alloc: Global, values: &[Value], groups: usize) -> Result<Option<Walk>, NoMemory>
    requires low { 2 ≤ groups }
    requires high { groups ≤ 16 }
    ensures { IfOk result (λ o. o ≡ walk_of groups (map view values.now)) }
{
    match groups_in(alloc, values, groups as u64 - 1)? {
        Some(numbers) => Ok(Walk::new(&numbers)),
        None => Ok(None),
    }
}

fn closed_in(alloc: Global, value: &Value, groups: usize) -> Result<Option<Node>, NoMemory>
    requires low { 2 ≤ groups }
    requires high { groups ≤ 16 }
    ensures { IfOk result (λ o. o
        ≡ option_map Closed (option_and_then (walk_of groups) (list_of (view value.now)))) }
{
    let Some(values) = list(value) else {
        return Ok(None);
    };
    match walk_in(alloc, values, groups)? {
        Some(walk) => Ok(Some(Node::Closed(walk))),
        None => Ok(None),
    }
}

fn split_of(number: u64) -> Option<Node>
    ensures { result ≡ option_map Split (within 0 last_item number) }
{
    if number <= LAST_ITEM {
        Some(Node::Split(number as u8))
    } else {
        None
    }
}

fn visited_in(alloc: Global, value: &Value, groups: usize) -> Result<Option<Node>, NoMemory>
    requires low { 2 ≤ groups }
    requires high { groups ≤ 16 }
    ensures { IfOk result (λ o. o ≡ visited_of groups (view value.now)) }
{
    match value.as_u64() {
        Some(number) => Ok(split_of(number)),
        None => closed_in(alloc, value, groups),
    }
}

fn node_in(alloc: Global, value: &Value, groups: usize) -> Result<Option<Node>, NoMemory>
    requires low { 2 ≤ groups }
    requires high { groups ≤ 16 }
    ensures { IfOk result (λ o. o ≡ node_of groups (view value.now)) }
{
    if value.is_null() {
        Ok(Some(Node::Unvisited))
    } else {
        visited_in(alloc, value, groups)
    }
}

fn nodes_in(alloc: Global, values: &[Value], groups: usize) -> Result<Option<Tree>, NoMemory>
    requires low { 2 ≤ groups }
    requires high { groups ≤ 16 }
    ensures { IfOk result (λ o. o ≡ all_of (node_of groups) (map view values.now)) }
{
    let mut tree = Tree::new(alloc);
    for value in values {
        let Some(node) = node_in(alloc, value, groups)? else {
            return Ok(None);
        };
        tree.push(node)?;
    }
    Ok(Some(tree))
}

fn tree_in(alloc: Global, value: &Value, groups: usize) -> Result<Option<Tree>, NoMemory>
    requires low { 2 ≤ groups }
    requires high { groups ≤ 16 }
    ensures { IfOk result (λ o. o ≡ tree_of groups (view value.now)) }
{
    let Some(values) = list(value) else {
        return Ok(None);
    };
    nodes_in(alloc, values, groups)
}

fn trees_in(alloc: Global, values: &[Value], groups: usize) -> Result<Option<Forest>, NoMemory>
    requires low { 2 ≤ groups }
    requires high { groups ≤ 16 }
    ensures { IfOk result (λ o. o ≡ all_of (tree_of groups) (map view values.now)) }
{
    let mut forest = Forest::new(alloc);
    for value in values {
        let Some(tree) = tree_in(alloc, value, groups)? else {
            return Ok(None);
        };
        forest.push(tree)?;
    }
    Ok(Some(forest))
}

fn few_trees_in(alloc: Global, values: &[Value], groups: usize) -> Result<Option<Forest>, NoMemory>
    requires low { 2 ≤ groups }
    requires high { groups ≤ 16 }
    ensures { IfOk result (λ o. o ≡ few_trees groups (map view values.now)) }
{
    if values.len() > MOST_TREES {
        return Ok(None);
    }
    trees_in(alloc, values, groups)
}

fn forest_in(
    alloc: Global,
    map: &Map<String, Value>,
    groups: usize,
) -> Result<Option<Forest>, NoMemory>
    requires low { 2 ≤ groups }
    requires high { groups ≤ 16 }
    ensures { IfOk result (λ o. o ≡ forest_under groups (members_view map.now.entries)) }
{
    let Some(value) = member(map, "branches") else {
        return Ok(None);
    };
    match list(value) {
        Some(values) => few_trees_in(alloc, values, groups),
        None => Ok(None),
    }
}

/// The trees, where the version may have them.
fn of_version(trees: Forest, version: u64) -> Option<Forest>
    ensures { result ≡ of_version trees version }
{
    if version == 2 || (version == 1 && are_of_first(&trees)) {
        Some(trees)
    } else {
        None
    }
}

/// The trees of a certificate, where the version that stands beside them may have them.
pub fn branches_in(
    alloc: Global,
    map: &Map<String, Value>,
    groups: usize,
) -> Result<Option<Forest>, NoMemory>
    requires low { 2 ≤ groups }
    requires high { groups ≤ 16 }
    ensures { IfOk result (λ o. o ≡ branches_under groups (members_view map.now.entries)) }
{
    let Some(trees) = forest_in(alloc, map, groups)? else {
        return Ok(None);
    };
    match whole_in(map, "version") {
        Some(version) => Ok(of_version(trees, version)),
        None => Ok(None),
    }
}

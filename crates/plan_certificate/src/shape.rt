//! Whether a JSON value has the shape of a certificate.
ghost use Rattle.std.specs.Prelude.{◌≡◌, codes, map};
ghost use Rattle.std.specs.List.{list_all};
ghost use Rattle.serde_json.specs.View.{view, members_view};
ghost use Rattle.plan_certificate.specs.Shape.{is_whole, is_list_of, is_node, is_tree, has, is_plan_of, is_plan, is_pair, is_text, is_certificate_of};

use crate::member::{list, member, member_count};
use serde_json::{Map, Value};

fn are_wholes(values: &[Value]) -> bool
    ensures { result ≡ list_all is_whole (map view values.now) }
{
    for value in values {
        if value.as_u64().is_none() {
            return false;
        }
    }
    true
}

fn is_list_of_wholes(value: &Value) -> bool
    ensures { result ≡ is_list_of is_whole (view value.now) }
{
    match list(value) {
        Some(values) => are_wholes(values),
        None => false,
    }
}

fn is_node(value: &Value) -> bool
    ensures { result ≡ is_node (view value.now) }
{
    value.is_null() || value.as_u64().is_some() || is_list_of_wholes(value)
}

fn are_nodes(values: &[Value]) -> bool
    ensures { result ≡ list_all is_node (map view values.now) }
{
    for value in values {
        if !is_node(value) {
            return false;
        }
    }
    true
}

fn is_tree(value: &Value) -> bool
    ensures { result ≡ is_tree (view value.now) }
{
    match list(value) {
        Some(nodes) => are_nodes(nodes),
        None => false,
    }
}

fn are_trees(values: &[Value]) -> bool
    ensures { result ≡ list_all is_tree (map view values.now) }
{
    for value in values {
        if !is_tree(value) {
            return false;
        }
    }
    true
}

fn is_forest(value: &Value) -> bool
    ensures { result ≡ is_list_of is_tree (view value.now) }
{
    match list(value) {
        Some(trees) => are_trees(trees),
        None => false,
    }
}

fn is_pair(value: &Value) -> bool
    ensures { result ≡ is_pair (view value.now) }
{
    match list(value) {
        Some(values) => values.len() == 2 && are_wholes(values),
        None => false,
    }
}

fn has_whole(map: &Map<String, Value>, key: &str) -> bool
    ensures { result ≡ has key.now is_whole (members_view map.now.entries) }
{
    match member(map, key) {
        Some(value) => value.as_u64().is_some(),
        None => false,
    }
}

fn has_wholes(map: &Map<String, Value>, key: &str) -> bool
    ensures { result ≡ has key.now (is_list_of is_whole) (members_view map.now.entries) }
{
    match member(map, key) {
        Some(value) => is_list_of_wholes(value),
        None => false,
    }
}

fn has_branches(map: &Map<String, Value>) -> bool
    ensures { result
        ≡ has (codes "branches") (is_list_of is_tree) (members_view map.now.entries) }
{
    match member(map, "branches") {
        Some(value) => is_forest(value),
        None => false,
    }
}

fn has_claim(map: &Map<String, Value>) -> bool
    ensures { result ≡ has (codes "claim") is_text (members_view map.now.entries) }
{
    match member(map, "claim") {
        Some(value) => value.as_str().is_some(),
        None => false,
    }
}

fn has_least(map: &Map<String, Value>) -> bool
    ensures { result ≡ has (codes "least") is_pair (members_view map.now.entries) }
{
    match member(map, "least") {
        Some(value) => is_pair(value),
        None => false,
    }
}

fn is_plan_object(map: &Map<String, Value>) -> bool
    ensures { result ≡ is_plan_of (members_view map.now.entries) }
{
    member_count(map) == 3
        && has_whole(map, "cycle")
        && has_wholes(map, "greens")
        && has_wholes(map, "starts")
}

fn is_plan(value: &Value) -> bool
    ensures { result ≡ is_plan (view value.now) }
{
    if value.is_null() {
        return true;
    }
    match value.as_object() {
        Some(map) => is_plan_object(map),
        None => false,
    }
}

fn has_plan(map: &Map<String, Value>) -> bool
    ensures { result ≡ has (codes "plan") is_plan (members_view map.now.entries) }
{
    match member(map, "plan") {
        Some(value) => is_plan(value),
        None => false,
    }
}

/// Whether the object has exactly the six keys of a certificate, each with a value of its kind.
pub fn is_certificate(map: &Map<String, Value>) -> bool
    ensures { result ≡ is_certificate_of (members_view map.now.entries) }
{
    member_count(map) == 6
        && has_branches(map)
        && has_whole(map, "budget")
        && has_claim(map)
        && has_least(map)
        && has_plan(map)
        && has_whole(map, "version")
}

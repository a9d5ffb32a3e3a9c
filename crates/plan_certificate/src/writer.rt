ghost use Rattle.std.specs.Prelude.{◌≡◌, ◌∷◌, [], ℕ, map, option_map, IfOk, OnOk};
ghost use Rattle.serde_json.specs.Data.{string, put as with_member};
ghost use Rattle.serde_json.specs.View.{view, members_view};
ghost use Rattle.plan_model.specs.Plan.{plan_of};
ghost use Rattle.plan_certificate.specs.Certificate.{certificate_of};
ghost use Rattle.plan_certificate.specs.Contents.{wholes, node_data, tree_data, forest_data};
ghost use Rattle.plan_certificate.specs.Ranges.{IsInRange};
ghost use Rattle.plan_certificate.specs.Reads.{Spells};
ghost use Rattle.plan_certificate.specs.Text.{plan_data, plan_or_null, certificate_data, text_of};

use crate::certificate::Certificate;
use crate::version::version;
use constraint_cycles::{Forest, Node, Tree, Walk};
use plan_model::Plan;
use serde_json::{Map, Value};
use sig_base::NoMemory;
use std::alloc::Global;

fn walk_value(alloc: Global, walk: &Walk) -> Result<Value, NoMemory>
    ensures { IfOk result (λ v. view v ≡ wholes walk.now) }
{
    let mut items = Vec::new(alloc);
    for group in walk.groups() {
        items.push(Value::from(*group))?;
    }
    Ok(Value::Array(items))
}

fn node_value(alloc: Global, node: &Node) -> Result<Value, NoMemory>
    ensures { IfOk result (λ v. view v ≡ node_data node.now) }
{
    match node {
        Node::Split(item) => Ok(Value::from(*item)),
        Node::Closed(walk) => walk_value(alloc, walk),
        Node::Unvisited => Ok(Value::Null),
    }
}

fn tree_value(alloc: Global, tree: &Tree) -> Result<Value, NoMemory>
    ensures { IfOk result (λ v. view v ≡ tree_data tree.now) }
{
    let mut items = Vec::new(alloc);
    for node in tree.items() {
        items.push(node_value(alloc, node)?)?;
    }
    Ok(Value::Array(items))
}

/// The JSON value of a forest: a list of trees, each the list of its nodes.
pub fn forest_value(alloc: Global, forest: &Forest) -> Result<Value, NoMemory>
    ensures { IfOk result (λ v. view v ≡ forest_data forest.now) }
{
    let mut items = Vec::new(alloc);
    for tree in forest.items() {
        items.push(tree_value(alloc, tree)?)?;
    }
    Ok(Value::Array(items))
}

fn put(map: &mut Map<String, Value>, alloc: Global, key: &str, value: Value) -> Result<(), NoMemory>
    ensures { OnOk result (members_view map.new.entries
        ≡ with_member key.now (view value) (members_view map.old.entries)) }
{
    serde_json::put(map, alloc, key, value)?;
    Ok(())
}

fn times_value(alloc: Global, seconds: &[u32]) -> Result<Value, NoMemory>
    ensures { IfOk result (λ v. view v ≡ wholes seconds.now) }
{
    let mut items = Vec::new(alloc);
    for second in seconds {
        items.push(Value::from(*second))?;
    }
    Ok(Value::Array(items))
}

/// The JSON value of a plan: an object of its cycle, greens and starts.
pub fn plan_value(alloc: Global, plan: &Plan) -> Result<Value, NoMemory>
    ensures { IfOk result (λ v. view v ≡ plan_data (plan_of plan.now)) }
{
    let mut map = Map::new(alloc);
    put(&mut map, alloc, "cycle", Value::from(plan.cycle()))?;
    let greens = times_value(alloc, plan.greens())?;
    put(&mut map, alloc, "greens", greens)?;
    let starts = times_value(alloc, plan.starts())?;
    put(&mut map, alloc, "starts", starts)?;
    Ok(Value::Object(map))
}

fn plan_or_null(alloc: Global, plan: &Option<Plan>) -> Result<Value, NoMemory>
    ensures { IfOk result (λ v. view v ≡ plan_or_null (option_map plan_of plan.now)) }
{
    match plan {
        Some(plan) => plan_value(alloc, plan),
        None => Ok(Value::Null),
    }
}

fn text_value(alloc: Global, text: &str) -> Result<Value, NoMemory>
    ensures { IfOk result (λ v. view v ≡ string text.now) }
{
    let text = String::from_str(alloc, text)?;
    Ok(Value::String(text))
}

fn pair_value(alloc: Global, first: u64, second: u64) -> Result<Value, NoMemory>
    ensures { IfOk result (λ v. view v ≡ wholes (first ∷ second ∷ [])) }
{
    let mut items = Vec::new(alloc);
    items.push(Value::from(first))?;
    items.push(Value::from(second))?;
    Ok(Value::Array(items))
}

fn certificate_value(alloc: Global, certificate: &Certificate) -> Result<Value, NoMemory>
    ensures { IfOk result (λ v. view v ≡ certificate_data (certificate_of certificate.now)) }
{
    let mut map = Map::new(alloc);
    let branches = forest_value(alloc, &certificate.branches)?;
    put(&mut map, alloc, "branches", branches)?;
    put(&mut map, alloc, "budget", Value::from(certificate.budget))?;
    let claim = text_value(alloc, certificate.claim.word())?;
    put(&mut map, alloc, "claim", claim)?;
    let least = pair_value(alloc, certificate.least.num(), certificate.least.den())?;
    put(&mut map, alloc, "least", least)?;
    let plan = plan_or_null(alloc, &certificate.plan)?;
    put(&mut map, alloc, "plan", plan)?;
    let version = version(&certificate.branches);
    put(&mut map, alloc, "version", Value::from(version))?;
    Ok(Value::Object(map))
}

/// The compact text of a certificate, without a line feed at its end. For every number of groups for which the
/// certificate's parts are in their ranges the text spells the certificate, so that `read` gives it back.
pub fn write(alloc: Global, certificate: &Certificate) -> Result<Vec<u8>, NoMemory>
    ensures text { IfOk result (λ bytes. bytes.items ≡ text_of (certificate_of certificate.now)) }
    ensures spells { IfOk result (λ bytes. (groups : ℕ) →
        IsInRange groups (certificate_of certificate.now)
        → Spells groups bytes.items (certificate_of certificate.now)) }
{
    let value = certificate_value(alloc, certificate)?;
    let text = value.to_string(alloc)?;
    Ok(text.into_bytes())
}

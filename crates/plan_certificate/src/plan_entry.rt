//! The plan of a certificate from its JSON value. `Ok(None)` says that a part is out of its range.
ghost use Rattle.std.specs.Prelude.{◌≡◌, ◌≤◌, Some, map, option_map, option_and_then, IfOk};
ghost use Rattle.serde_json.specs.Find.{as_object};
ghost use Rattle.serde_json.specs.View.{view, members_view};
ghost use Rattle.plan_model.specs.Plan.{plan_of};
ghost use Rattle.plan_certificate.specs.Ranges.{longest_time};
ghost use Rattle.plan_certificate.specs.Members.{all_of, whole_within, times_under, cycle_under, plan_from, plan_under, plan_of_value, plan_or_null_under};

use crate::member::{list, member};
use plan_model::Plan;
use serde_json::{Map, Value};
use sig_base::{LONGEST_CYCLE, NoMemory};
use std::alloc::Global;

const LONGEST_TIME: u64 = LONGEST_CYCLE as u64;

fn times_of(alloc: Global, values: &[Value]) -> Result<Option<Vec<u32>>, NoMemory>
    ensures { IfOk result (λ o. option_map (λ v. v.items) o
        ≡ all_of (whole_within 0 longest_time) (map view values.now)) }
{
    let mut times = Vec::new(alloc);
    for value in values {
        let Some(number) = value.as_u64() else {
            return Ok(None);
        };
        if number > LONGEST_TIME {
            return Ok(None);
        }
        times.push(number as u32)?;
    }
    Ok(Some(times))
}

fn times_in(
    alloc: Global,
    map: &Map<String, Value>,
    key: &str,
) -> Result<Option<Vec<u32>>, NoMemory>
    ensures { IfOk result (λ o. option_map (λ v. v.items) o
        ≡ times_under key.now (members_view map.now.entries)) }
{
    let Some(value) = member(map, key) else {
        return Ok(None);
    };
    match list(value) {
        Some(values) => times_of(alloc, values),
        None => Ok(None),
    }
}

fn cycle_in(map: &Map<String, Value>) -> Option<u32>
    ensures { result ≡ cycle_under (members_view map.now.entries) }
{
    match member(map, "cycle")?.as_u64() {
        Some(number) if number >= 1 && number <= LONGEST_TIME => Some(number as u32),
        _ => None,
    }
}

fn plan_from(groups: usize, cycle: u32, starts: &[u32], greens: &[u32]) -> Option<Plan>
    requires low { 2 ≤ groups }
    requires high { groups ≤ 16 }
    ensures { option_map plan_of result ≡ plan_from groups cycle starts.now greens.now }
{
    if starts.len() == groups && greens.len() == groups {
        Plan::new(cycle, starts, greens)
    } else {
        None
    }
}

fn plan_in(alloc: Global, map: &Map<String, Value>, groups: usize) -> Result<Option<Plan>, NoMemory>
    requires low { 2 ≤ groups }
    requires high { groups ≤ 16 }
    ensures { IfOk result (λ o. option_map plan_of o
        ≡ plan_under groups (members_view map.now.entries)) }
{
    let Some(cycle) = cycle_in(map) else {
        return Ok(None);
    };
    let Some(starts) = times_in(alloc, map, "starts")? else {
        return Ok(None);
    };
    let Some(greens) = times_in(alloc, map, "greens")? else {
        return Ok(None);
    };
    Ok(plan_from(groups, cycle, &starts, &greens))
}

fn plan_of_object(
    alloc: Global,
    value: &Value,
    groups: usize,
) -> Result<Option<Option<Plan>>, NoMemory>
    requires low { 2 ≤ groups }
    requires high { groups ≤ 16 }
    ensures { IfOk result (λ o. option_map (λ p. option_map plan_of p) o
        ≡ option_map Some (option_and_then (plan_under groups) (as_object (view value.now)))) }
{
    let Some(map) = value.as_object() else {
        return Ok(None);
    };
    match plan_in(alloc, map, groups)? {
        Some(plan) => Ok(Some(Some(plan))),
        None => Ok(None),
    }
}

fn plan_of_value(
    alloc: Global,
    value: &Value,
    groups: usize,
) -> Result<Option<Option<Plan>>, NoMemory>
    requires low { 2 ≤ groups }
    requires high { groups ≤ 16 }
    ensures { IfOk result (λ o. option_map (λ p. option_map plan_of p) o
        ≡ plan_of_value groups (view value.now)) }
{
    if value.is_null() {
        Ok(Some(None))
    } else {
        plan_of_object(alloc, value, groups)
    }
}

/// The plan of a certificate, or that it has none.
pub fn plan_or_null_in(
    alloc: Global,
    map: &Map<String, Value>,
    groups: usize,
) -> Result<Option<Option<Plan>>, NoMemory>
    requires low { 2 ≤ groups }
    requires high { groups ≤ 16 }
    ensures { IfOk result (λ o. option_map (λ p. option_map plan_of p) o
        ≡ plan_or_null_under groups (members_view map.now.entries)) }
{
    match member(map, "plan") {
        Some(value) => plan_of_value(alloc, value, groups),
        None => Ok(None),
    }
}

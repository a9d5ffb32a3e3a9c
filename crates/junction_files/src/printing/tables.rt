ghost use Rattle.std.specs.Prelude.{◌≡◌, ◌<◌, map, length, All, IfOk, OnOk};
ghost use Rattle.toml.specs.View.{view, table_view};
ghost use Rattle.conflict_matrix.specs.Conflicts.{matrix_of};
ghost use Rattle.conflict_matrix.specs.Links.{IsWithin};
ghost use Rattle.junction_model.specs.Rules.{IsLane};
ghost use Rattle.junction_files.specs.Printing.{tables, with_text, seconds_between, first_group_members, group_members, lane_members, conflict_members, conflict_tables, link_members};

use crate::document::Version;
use crate::faults::Key;
use crate::printing::member::{put_number, put_text};
use conflict_matrix::{Conflicts, Link};
use flow_model::Lane;
use junction_model::Group;
use sig_base::{Label, NoMemory};
use std::alloc::Global;
use toml::{Table, Value};

fn put_label(alloc: Global, table: &mut Table, key: Key, label: &Label) -> Result<(), NoMemory>
    ensures { OnOk result (table_view table.new
        ≡ with_text key label.now (table_view table.old)) }
{
    put_text(alloc, table, key, label.bytes())
}

/// A group as a table of the first version.
fn first_group_table(alloc: Global, group: &Group) -> Result<Table, NoMemory>
    ensures { IfOk result (λ t. table_view t ≡ first_group_members group.now) }
{
    let times = group.times;
    let mut table = Table::new(alloc);
    put_label(alloc, &mut table, Key::Name, &group.label)?;
    put_number(alloc, &mut table, Key::MinGreen, times.min_green)?;
    put_number(alloc, &mut table, Key::Amber, times.amber)?;
    put_number(alloc, &mut table, Key::RedAmber, times.red_amber)?;
    put_number(alloc, &mut table, Key::StartLost, times.start_lost)?;
    put_number(alloc, &mut table, Key::EndGain, times.end_gain)?;
    Ok(table)
}

fn group_table(alloc: Global, version: Version, group: &Group) -> Result<Table, NoMemory>
    ensures { IfOk result (λ t. table_view t ≡ group_members version group.now) }
{
    let mut table = first_group_table(alloc, group)?;
    if version == Version::Second {
        put_number(alloc, &mut table, Key::MaxGreen, group.times.max_green)?;
    }
    Ok(table)
}

/// The groups as tables of a document.
pub fn group_tables(
    alloc: Global,
    version: Version,
    groups: &[Group],
) -> Result<Vec<Value>, NoMemory>
    ensures { IfOk result (λ values.
        map view values.items ≡ tables (group_members version) groups.now) }
{
    let mut values = Vec::new(alloc);
    for group in groups {
        let table = group_table(alloc, version, group)?;
        values.push(Value::Table(table))?;
    }
    Ok(values)
}

fn lane_table(alloc: Global, groups: &[Group], lane: &Lane) -> Result<Table, NoMemory>
    requires { lane.now.group < length groups.now }
    ensures { IfOk result (λ t. table_view t ≡ lane_members groups.now lane.now) }
{
    let mut table = Table::new(alloc);
    put_label(alloc, &mut table, Key::Name, &lane.label)?;
    let group = &groups[lane.group as usize];
    put_label(alloc, &mut table, Key::Group, &group.label)?;
    put_number(alloc, &mut table, Key::Arrival, lane.arrival)?;
    put_number(alloc, &mut table, Key::Saturation, lane.saturation)?;
    put_number(alloc, &mut table, Key::Limit, lane.limit)?;
    Ok(table)
}

/// The lanes of these groups as tables of a document.
pub fn lane_tables(alloc: Global, groups: &[Group], lanes: &[Lane]) -> Result<Vec<Value>, NoMemory>
    requires { All (IsLane (length groups.now)) lanes.now }
    ensures { IfOk result (λ values.
        map view values.items ≡ tables (lane_members groups.now) lanes.now) }
{
    let mut values = Vec::new(alloc);
    for lane in lanes {
        let table = lane_table(alloc, groups, lane)?;
        values.push(Value::Table(table))?;
    }
    Ok(values)
}

fn seconds(conflicts: &Conflicts, from: usize, to: usize) -> u32
    requires from { from < (matrix_of conflicts.now).groups }
    requires to { to < (matrix_of conflicts.now).groups }
    ensures { result ≡ seconds_between (matrix_of conflicts.now) from to }
{
    conflicts.intergreen(from, to).unwrap_or(0)
}

fn conflict_table(
    alloc: Global,
    groups: &[Group],
    conflicts: &Conflicts,
    pair: (usize, usize),
) -> Result<Table, NoMemory>
    requires same { (matrix_of conflicts.now).groups ≡ length groups.now }
    requires a { pair.0 < length groups.now }
    requires b { pair.1 < length groups.now }
    ensures { IfOk result (λ t.
        table_view t ≡ conflict_members groups.now (matrix_of conflicts.now) pair) }
{
    let (a, b) = pair;
    let mut table = Table::new(alloc);
    put_label(alloc, &mut table, Key::A, &groups[a].label)?;
    put_label(alloc, &mut table, Key::B, &groups[b].label)?;
    put_number(alloc, &mut table, Key::AToB, seconds(conflicts, a, b))?;
    put_number(alloc, &mut table, Key::BToA, seconds(conflicts, b, a))?;
    Ok(table)
}

/// The conflicts of these groups as tables of a document, by the number of their pair.
pub fn conflict_tables(
    alloc: Global,
    groups: &[Group],
    conflicts: &Conflicts,
) -> Result<Vec<Value>, NoMemory>
    requires { (matrix_of conflicts.now).groups ≡ length groups.now }
    ensures { IfOk result (λ values.
        map view values.items ≡ conflict_tables groups.now (matrix_of conflicts.now)) }
{
    let mut values = Vec::new(alloc);
    for number in 0..conflicts.pair_count() {
        let table = conflict_table(alloc, groups, conflicts, conflicts.pair(number))?;
        values.push(Value::Table(table))?;
    }
    Ok(values)
}

fn link_table(alloc: Global, groups: &[Group], link: &Link) -> Result<Table, NoMemory>
    requires leader { link.now.leader < length groups.now }
    requires follower { link.now.follower < length groups.now }
    ensures { IfOk result (λ t. table_view t ≡ link_members groups.now link.now) }
{
    let leader = &groups[link.leader as usize];
    let follower = &groups[link.follower as usize];
    let mut table = Table::new(alloc);
    put_label(alloc, &mut table, Key::Leader, &leader.label)?;
    put_label(alloc, &mut table, Key::Follower, &follower.label)?;
    put_number(alloc, &mut table, Key::After, link.after)?;
    Ok(table)
}

/// The links of these groups as tables of a document.
pub fn link_tables(alloc: Global, groups: &[Group], links: &[Link]) -> Result<Vec<Value>, NoMemory>
    requires { All (IsWithin (length groups.now)) links.now }
    ensures { IfOk result (λ values.
        map view values.items ≡ tables (link_members groups.now) links.now) }
{
    let mut values = Vec::new(alloc);
    for link in links {
        let table = link_table(alloc, groups, link)?;
        values.push(Value::Table(table))?;
    }
    Ok(values)
}

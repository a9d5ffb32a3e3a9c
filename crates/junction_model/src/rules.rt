ghost use Rattle.std.specs.Prelude.{◌≡◌, ◌↔◌, ◌<◌, ◌≤◌, length, IsTrue, Any};
ghost use Rattle.sig_base.specs.Times.{AreTimes};
ghost use Rattle.conflict_matrix.specs.Conflicts.{matrix_of};
ghost use Rattle.flow_model.specs.Lane.{AreFlows};
ghost use Rattle.junction_model.specs.Rules.{AreCycles, AreGroups, AreLanes, AreConflicts, IsGroup, IsLane, IsLongEnough, IsPairLongEnough, AreLongEnoughFrom, AreLongEnough, HasPartner, ArePartnered};

use crate::group::Group;
use crate::labelled::are_distinct;
use conflict_matrix::Conflicts;
use flow_model::{Lane, MOST_FLOW, WHOLE};
use sig_base::{
    GroupTimes, LONGEST_AMBER, LONGEST_CYCLE, LONGEST_GREEN, LONGEST_MIN_GREEN, LONGEST_RED_AMBER,
    LONGEST_START_LOST, MOST_GROUPS, MOST_LANES,
};

pub fn are_cycles(least: u32, greatest: u32) -> bool
    ensures { IsTrue result ↔ AreCycles least greatest }
{
    1 <= least && least <= greatest && greatest <= LONGEST_CYCLE
}

fn are_times(times: &GroupTimes) -> bool
    ensures { IsTrue result ↔ AreTimes times.now }
{
    times.min_green >= 1
        && times.min_green <= LONGEST_MIN_GREEN
        && times.amber <= LONGEST_AMBER
        && times.red_amber <= LONGEST_RED_AMBER
        && (times.start_lost <= LONGEST_START_LOST && times.end_gain <= LONGEST_AMBER)
        && (times.max_green >= 1 && times.max_green <= LONGEST_GREEN)
}

fn is_group(group: &Group) -> bool
    ensures { IsTrue result ↔ IsGroup group.now }
{
    let _ = group.label.bytes();
    let times = &group.times;
    are_times(times)
        && times.end_gain <= times.amber
        && u64::from(times.start_lost) < u64::from(times.min_green) + u64::from(times.end_gain)
        && times.min_green <= times.max_green
}

pub fn are_groups(groups: &[Group]) -> bool
    ensures { IsTrue result ↔ AreGroups groups.now }
{
    groups.len() >= 2
        && groups.len() <= MOST_GROUPS
        && groups.iter().all(is_group)
        && are_distinct(groups)
}

fn are_flows(lane: &Lane) -> bool
    ensures { IsTrue result ↔ AreFlows lane.now }
{
    lane.arrival <= MOST_FLOW
        && lane.saturation >= 1
        && lane.saturation <= MOST_FLOW
        && lane.limit >= 1
        && lane.limit <= WHOLE
}

fn is_lane(groups: usize, lane: &Lane) -> bool
    ensures { IsTrue result ↔ IsLane groups lane.now }
{
    let _ = lane.label.bytes();
    (lane.group as usize) < groups && are_flows(lane)
}

fn has_arrival(lanes: &[Lane]) -> bool
    ensures { IsTrue result ↔ Any (λ (lane : Lane). 1 ≤ lane.arrival) lanes.now }
{
    lanes.iter().any(|lane| lane.arrival >= 1)
}

pub fn are_lanes(groups: usize, lanes: &[Lane]) -> bool
    ensures { IsTrue result ↔ AreLanes groups lanes.now }
{
    !lanes.is_empty()
        && lanes.len() <= MOST_LANES
        && lanes.iter().all(|lane| is_lane(groups, lane))
        && are_distinct(lanes)
        && has_arrival(lanes)
}

fn has_partner(conflicts: &Conflicts, i: usize) -> bool
    requires { i < (matrix_of conflicts.now).groups }
    ensures { IsTrue result ↔ HasPartner (matrix_of conflicts.now) i }
{
    for j in 0..conflicts.groups() {
        if conflicts.intergreen(i, j).is_some() {
            return true;
        }
    }
    false
}

fn each_has_partner(conflicts: &Conflicts) -> bool
    ensures { IsTrue result ↔ ArePartnered (matrix_of conflicts.now) }
{
    for i in 0..conflicts.groups() {
        if !has_partner(conflicts, i) {
            return false;
        }
    }
    true
}

fn is_long_enough(from: &Group, to: &Group, intergreen: u32) -> bool
    ensures { IsTrue result ↔ IsLongEnough from.now to.now intergreen }
{
    from.times.amber <= intergreen && to.times.red_amber <= intergreen
}

fn is_pair_long_enough(groups: &[Group], conflicts: &Conflicts, i: usize, j: usize) -> bool
    requires same { (matrix_of conflicts.now).groups ≡ length groups.now }
    requires i { i < length groups.now }
    requires j { j < length groups.now }
    ensures { IsTrue result ↔ IsPairLongEnough groups.now (matrix_of conflicts.now) i j }
{
    match conflicts.intergreen(i, j) {
        Some(intergreen) => is_long_enough(&groups[i], &groups[j], intergreen),
        None => true,
    }
}

fn are_long_enough_from(groups: &[Group], conflicts: &Conflicts, i: usize) -> bool
    requires same { (matrix_of conflicts.now).groups ≡ length groups.now }
    requires i { i < length groups.now }
    ensures { IsTrue result ↔ AreLongEnoughFrom groups.now (matrix_of conflicts.now) i }
{
    for j in 0..groups.len() {
        if !is_pair_long_enough(groups, conflicts, i, j) {
            return false;
        }
    }
    true
}

fn are_long_enough(groups: &[Group], conflicts: &Conflicts) -> bool
    requires { (matrix_of conflicts.now).groups ≡ length groups.now }
    ensures { IsTrue result ↔ AreLongEnough groups.now (matrix_of conflicts.now) }
{
    for i in 0..groups.len() {
        if !are_long_enough_from(groups, conflicts, i) {
            return false;
        }
    }
    true
}

pub fn are_conflicts(groups: &[Group], conflicts: &Conflicts) -> bool
    ensures { IsTrue result ↔ AreConflicts groups.now (matrix_of conflicts.now) }
{
    conflicts.groups() == groups.len()
        && each_has_partner(conflicts)
        && are_long_enough(groups, conflicts)
}

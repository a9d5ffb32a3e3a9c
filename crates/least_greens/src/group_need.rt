ghost use Rattle.std.specs.Prelude.{ℕ, ◌≡◌, ◌-◌, ◌<◌, ◌≤◌, ◌↔◌, length, Some, IsTrue, IsSomeAnd, drop, replicate, slice_get, slice_index, take};
ghost use Rattle.sig_base.specs.Times.{IsCycle};
ghost use Rattle.flow_model.specs.Lane.{AreFlows};
ghost use Rattle.junction_model.specs.Rules.{IsGroup};
ghost use Rattle.constraint_cycles.specs.Edge.{AreNeeds};
ghost use Rattle.plan_model.specs.Fits.{group_count};
ghost use Rattle.least_greens.specs.LeastFrom.{IsLaneNeed};
ghost use Rattle.least_greens.specs.Need.{CountsForGroup, IsNeed};
ghost use Rattle.least_greens.specs.NeedOf.{need_of};
ghost use Rattle.least_greens.specs.ForTarget.{needs_of};

use crate::laws::need_law;
use crate::least_green::least_green;
use flow_model::Lane;
use junction_model::{Group, Junction};
use sig_base::{LaneSet, NO_GREEN, Target};

fn group_at(junction: &Junction, group: usize) -> &Group
    requires { group < group_count junction.now }
    ensures value { slice_get junction.now.groups group ≡ Some result.now }
    ensures rules { IsGroup result.now }
{
    junction.rules();
    &junction.groups()[group]
}

fn lane_at(junction: &Junction, lane: usize) -> &Lane
    requires { lane < length junction.now.lanes }
    ensures value { slice_get junction.now.lanes lane ≡ Some result.now }
    ensures flows { AreFlows result.now }
    ensures few { lane < 32 }
{
    junction.rules();
    &junction.lanes()[lane]
}

/// Whether the lane is in the set and of the group, and something arrives on it.
fn is_asked(junction: &Junction, lanes: LaneSet, group: usize, lane: usize) -> bool
    requires { lane < length junction.now.lanes }
    ensures { IsTrue result ↔ IsSomeAnd (slice_get junction.now.lanes lane)
        (CountsForGroup junction.now lanes group lane) }
{
    let own = lane_at(junction, lane);
    lanes.contains(lane) && own.group as usize == group && own.arrival >= 1
}

/// The seconds from which on each green of the group's minimum to 300 seconds serves the lane; 0 where the lane isn't
/// asked, 301 where none does.
fn lane_need(
    junction: &Junction,
    lanes: LaneSet,
    target: Target,
    cycle: u32,
    group: usize,
    lane: usize,
) -> u32
    requires cycle { IsCycle cycle }
    requires group { group < group_count junction.now }
    requires lane { lane < length junction.now.lanes }
    ensures { IsLaneNeed junction.now lanes target cycle group lane result }
{
    let own = group_at(junction, group);
    if is_asked(junction, lanes, group, lane) {
        least_green(lane_at(junction, lane), own, target, cycle)
    } else {
        0
    }
}

/// The least green in seconds, of 1 to the group's maximum, that is at least its minimum and with which each lane of the
/// set and of the group reaches the target's ratio, or exceeds it, at the cycle; 301 where there is none. A lane on
/// which nothing arrives asks nothing.
pub fn need(junction: &Junction, lanes: LaneSet, target: Target, cycle: u32, group: usize) -> u32
    requires cycle { IsCycle cycle }
    requires group { group < group_count junction.now }
    ensures need { IsNeed junction.now lanes target cycle group result }
    ensures value { result ≡ need_of junction.now lanes target cycle group }
{
    need_law();
    let times = group_at(junction, group).times;
    let mut need = times.min_green;
    for lane in 0..junction.lanes().len() {
        need = need.max(lane_need(junction, lanes, target, cycle, group, lane));
    }
    if need <= times.max_green {
        need
    } else {
        NO_GREEN
    }
}

/// The need of each group in seconds, and 0 past the last group.
pub fn needs(junction: &Junction, lanes: LaneSet, target: Target, cycle: u32) -> [u32; 16]
    requires cycle { IsCycle cycle }
    ensures each { (g : ℕ) → g < group_count junction.now →
        slice_index result g ≡ need_of junction.now lanes target cycle g }
    ensures value { take (group_count junction.now) result ≡
        needs_of junction.now lanes target cycle }
    ensures unused { drop (group_count junction.now) result ≡
        replicate (16 - group_count junction.now) 0 }
    ensures range { AreNeeds junction.now.conflicts result }
{
    junction.rules();
    let mut needs = [0; 16];
    for group in 0..junction.groups().len() {
        needs[group] = need(junction, lanes, target, cycle, group);
    }
    needs
}

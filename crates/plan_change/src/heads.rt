ghost use Rattle.std.specs.Prelude.{◌≡◌, ◌≤◌, ◌<◌, ◌+◌, ◌-◌};
ghost use Rattle.plan_model.specs.Fits.{Fits, group_count};
ghost use Rattle.plan_model.specs.Plan.{plan_of};
ghost use Rattle.plan_change.specs.Heads.{lasting, first_record, later_record, kept_record};
ghost use Rattle.plan_change.specs.Heads.{restarted_record, kept_left};
ghost use Rattle.plan_change.specs.Heads.{HasRecords, AreCounting, AreShort};
ghost use Rattle.plan_change.specs.Schedule.{times_at, change_gap, greatest_from};

use crate::head::{Head, first_head, kept_head, later_head};
use junction_model::Junction;
use plan_model::Plan;
use sig_base::GroupTimes;

/// No run, and no start to come.
pub const NO_HEAD: Head = Head {
    start: 0,
    over: 0,
    next: 0,
};

pub fn times_of(junction: &Junction, group: usize) -> GroupTimes
    requires { group < group_count junction.now }
    ensures value { result ≡ times_at junction.now group }
    ensures amber { result.amber ≤ 30 }
    ensures red_amber { result.red_amber ≤ 10 }
{
    junction.rules();
    junction.groups()[group].times
}

/// The seconds of the group's green and of the amber after it.
fn lasting_of(junction: &Junction, plan: &Plan, group: usize) -> u32
    requires fits { Fits junction.now (plan_of plan.now) }
    requires group { group < group_count junction.now }
    ensures value { result ≡ lasting junction.now (plan_of plan.now) group }
    ensures most { result ≤ 400 }
{
    junction.rules();
    plan.greens()[group] + times_of(junction, group).amber
}

fn first_of(junction: &Junction, plan: &Plan, group: usize) -> Head
    requires fits { Fits junction.now (plan_of plan.now) }
    requires group { group < group_count junction.now }
    ensures { result ≡ first_record junction.now (plan_of plan.now) group }
{
    junction.rules();
    first_head(
        plan.starts()[group],
        plan.cycle(),
        lasting_of(junction, plan, group),
    )
}

fn later_of(junction: &Junction, plan: &Plan, old: &[Head; 16], group: usize) -> Head
    requires fits { Fits junction.now (plan_of plan.now) }
    requires counting { AreCounting junction.now old.now }
    requires group { group < group_count junction.now }
    ensures { result ≡ later_record junction.now (plan_of plan.now) old.now group }
{
    junction.rules();
    later_head(old[group], plan.cycle(), lasting_of(junction, plan, group))
}

fn kept_of(junction: &Junction, plan: &Plan, old: &[Head; 16], group: usize) -> Head
    requires fits { Fits junction.now (plan_of plan.now) }
    requires group { group < group_count junction.now }
    ensures { result ≡ kept_record junction.now (plan_of plan.now) old.now group }
{
    junction.rules();
    let red_amber = times_of(junction, group).red_amber;
    kept_head(old[group], red_amber, lasting_of(junction, plan, group))
}

fn restarted_of(junction: &Junction, plan: &Plan, wait: u32, old: &[Head; 16], group: usize) -> Head
    requires fits { Fits junction.now (plan_of plan.now) }
    requires wait { wait ≤ 1000 }
    requires group { group < group_count junction.now }
    ensures { result ≡ restarted_record (plan_of plan.now) wait old.now group }
{
    junction.rules();
    Head {
        start: old[group].start,
        over: old[group].over,
        next: wait + plan.starts()[group],
    }
}

/// The records at second 0 of a plan.
pub fn first_heads(junction: &Junction, plan: &Plan) -> [Head; 16]
    requires { Fits junction.now (plan_of plan.now) }
    ensures { HasRecords junction.now (first_record junction.now (plan_of plan.now)) result }
{
    junction.rules();
    let mut heads = [NO_HEAD; 16];
    for i in 0..junction.groups().len() {
        heads[i] = first_of(junction, plan, i);
    }
    heads
}

/// The records a second later.
pub fn later_heads(junction: &Junction, plan: &Plan, old: &[Head; 16]) -> [Head; 16]
    requires fits { Fits junction.now (plan_of plan.now) }
    requires counting { AreCounting junction.now old.now }
    ensures { HasRecords junction.now
        (later_record junction.now (plan_of plan.now) old.now) result }
{
    junction.rules();
    let mut heads = [NO_HEAD; 16];
    for i in 0..junction.groups().len() {
        heads[i] = later_of(junction, plan, old, i);
    }
    heads
}

/// The records with the runs that a request keeps.
pub fn kept_heads(junction: &Junction, plan: &Plan, old: &[Head; 16]) -> [Head; 16]
    requires fits { Fits junction.now (plan_of plan.now) }
    ensures { HasRecords junction.now (kept_record junction.now (plan_of plan.now) old.now) result }
{
    junction.rules();
    let mut heads = [NO_HEAD; 16];
    for i in 0..junction.groups().len() {
        heads[i] = kept_of(junction, plan, old, i);
    }
    heads
}

/// The records where a plan begins in so many seconds.
pub fn restarted_heads(junction: &Junction, plan: &Plan, wait: u32, old: &[Head; 16]) -> [Head; 16]
    requires fits { Fits junction.now (plan_of plan.now) }
    requires wait { wait ≤ 1000 }
    ensures { HasRecords junction.now (restarted_record (plan_of plan.now) wait old.now) result }
{
    junction.rules();
    let mut heads = [NO_HEAD; 16];
    for i in 0..junction.groups().len() {
        heads[i] = restarted_of(junction, plan, wait, old, i);
    }
    heads
}

fn green_left_of(head: &Head, amber: u32) -> u32
    ensures { result ≡ head.now.over - amber }
{
    head.over.saturating_sub(amber)
}

/// The seconds until no kept run is green: at least one.
fn kept_seconds(junction: &Junction, heads: &[Head; 16]) -> u32
    requires { AreShort junction.now heads.now }
    ensures value { result ≡ kept_left junction.now heads.now }
    ensures most { result ≤ 400 }
{
    junction.rules();
    let mut left = 1u32;
    for i in 0..junction.groups().len() {
        left = left.max(green_left_of(&heads[i], times_of(junction, i).amber));
    }
    left
}

/// The greatest intergreen from the group.
fn greatest_wait(junction: &Junction, group: usize) -> u32
    requires { group < group_count junction.now }
    ensures value { result ≡ greatest_from junction.now group }
    ensures most { result ≤ 60 }
{
    junction.rules();
    let mut most = 0u32;
    for to in 0..junction.groups().len() {
        most = most.max(junction.conflicts().intergreen(group, to).unwrap_or(0));
    }
    most
}

/// The seconds between the last kept green and the new plan.
fn gap(junction: &Junction) -> u32
    ensures value { result ≡ change_gap junction.now }
    ensures most { result ≤ 60 }
{
    junction.rules();
    let mut most = 0u32;
    for i in 0..junction.groups().len() {
        let times = times_of(junction, i);
        most = most
            .max(greatest_wait(junction, i))
            .max(times.amber + times.red_amber);
    }
    most
}

/// The seconds from a request to the beginning of its plan.
pub fn seconds_to_begin(junction: &Junction, kept: &[Head; 16]) -> u32
    requires { AreShort junction.now kept.now }
    ensures value { result ≡ kept_left junction.now kept.now + change_gap junction.now }
    ensures most { result ≤ 460 }
{
    kept_seconds(junction, kept) + gap(junction)
}

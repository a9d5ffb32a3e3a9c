ghost use Rattle.std.specs.Prelude.{ℕ, ◌≡◌, ◌+◌, ◌*◌, ◌^◌, ◌<◌, ◌≤◌, ◌↔◌};
ghost use Rattle.sig_base.specs.Ratio.{fraction_of};
ghost use Rattle.sig_base.specs.Times.{IsCycle};
ghost use Rattle.flow_model.specs.Lane.{AreFlows, lane_multiplier_of};
ghost use Rattle.junction_model.specs.Rules.{IsGroup};
ghost use Rattle.plan_model.specs.Multiplier.{Serves};
ghost use Rattle.plan_model.specs.Serving.{multiplier_under};
ghost use Rattle.least_greens.specs.LeastFrom.{IsLeastFrom};

use flow_model::Lane;
use junction_model::Group;
use sig_base::{NO_GREEN, Ratio, Target};

/// What the multiple of the lane's arrivals asks in a cycle, in the measure of `served`.
fn asked(lane: &Lane, multiple: Ratio, cycle: u32) -> u128
    requires flows { AreFlows lane.now }
    requires cycle { IsCycle cycle }
    ensures value { result ≡ (fraction_of multiple).num * (1000 * lane.now.arrival * cycle) }
    ensures small { result < 2 ^ 100 }
{
    u128::from(multiple.num()) * (1000 * u128::from(lane.arrival) * u128::from(cycle))
}

/// What a second of effective green serves.
fn served(lane: &Lane, multiple: Ratio) -> u128
    requires { AreFlows lane.now }
    ensures value { result ≡ lane.now.limit * lane.now.saturation * (fraction_of multiple).den }
    ensures some { 1 ≤ result }
{
    u128::from(lane.limit) * u128::from(lane.saturation) * u128::from(multiple.den())
}

/// The least effective green in seconds with which the lane reaches the target's ratio, or exceeds it.
fn least_effective(lane: &Lane, target: Target, cycle: u32) -> u128
    requires flows { AreFlows lane.now }
    requires cycle { IsCycle cycle }
    ensures exactly { (effective : ℕ) →
        Serves target (lane_multiplier_of lane.now effective cycle) ↔ (result ≤ effective) }
    ensures small { result ≤ 2 ^ 100 }
{
    match target {
        Target::Reach(least) => asked(lane, least, cycle).div_ceil(served(lane, least)),
        Target::Beat(most) => asked(lane, most, cycle) / served(lane, most) + 1,
    }
}

/// The seconds from which on each green of the group's minimum to 300 seconds lets the lane do so; 301 where none does.
pub fn least_green(lane: &Lane, group: &Group, target: Target, cycle: u32) -> u32
    requires flows { AreFlows lane.now }
    requires group { IsGroup group.now }
    requires cycle { IsCycle cycle }
    ensures { IsLeastFrom group.now.times.min_green
        (λ green. Serves target (multiplier_under lane.now group.now.times cycle green)) result }
{
    let shown = least_effective(lane, target, cycle) + u128::from(group.times.start_lost);
    shown
        .saturating_sub(u128::from(group.times.end_gain))
        .min(u128::from(NO_GREEN)) as u32
}

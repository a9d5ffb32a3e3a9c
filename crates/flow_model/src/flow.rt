ghost use Rattle.std.specs.Prelude.{◌≡◌, ◌≤◌, ◌↔◌, IsNone, IfSome};
ghost use Rattle.sig_base.specs.Fraction.{IsSameFraction};
ghost use Rattle.sig_base.specs.Ratio.{fraction_of};
ghost use Rattle.sig_base.specs.Times.{AreTimes, IsCycle};
ghost use Rattle.flow_model.specs.Lane.{AreFlows, effective_green, lane_multiplier_of, saturation_of};

use crate::lane::{Lane, WHOLE};
use sig_base::{GroupTimes, Ratio};

/// The effective green in seconds: the green, less the start that is lost, and the end that is gained.
pub fn effective(times: &GroupTimes, green: u32) -> u32
    requires green { green ≤ 900 }
    requires times { AreTimes times.now }
    requires some { 1 ≤ effective_green times.now green }
    ensures { result ≡ effective_green times.now green }
{
    green + times.end_gain - times.start_lost
}

/// The greatest multiple of the lane's arrivals that keeps its degree of saturation within its limit,
/// `limit * saturation * effective / (1000 * arrival * cycle)`; `None` exactly where nothing arrives.
pub fn lane_multiplier(lane: &Lane, effective: u32, cycle: u32) -> Option<Ratio>
    requires flows { AreFlows lane.now }
    requires some { 1 ≤ effective }
    requires effective { effective ≤ 1000 }
    requires cycle { IsCycle cycle }
    ensures none { IsNone result ↔ (lane.now.arrival ≡ 0) }
    ensures value { IfSome result (λ r.
        IsSameFraction (fraction_of r) (lane_multiplier_of lane.now effective cycle)) }
{
    let served = u64::from(lane.limit) * u64::from(lane.saturation) * u64::from(effective);
    let asked = u64::from(WHOLE) * u64::from(lane.arrival) * u64::from(cycle);
    Ratio::new(served, asked)
}

/// The degree of saturation, `arrival * cycle / (saturation * effective)`.
pub fn saturation(lane: &Lane, effective: u32, cycle: u32) -> Ratio
    requires flows { AreFlows lane.now }
    requires some { 1 ≤ effective }
    requires effective { effective ≤ 1000 }
    requires cycle { IsCycle cycle }
    ensures { IsSameFraction (fraction_of result) (saturation_of lane.now effective cycle) }
{
    let arriving = u64::from(lane.arrival) * u64::from(cycle);
    let leaving = u64::from(lane.saturation) * u64::from(effective);
    match Ratio::new(arriving, leaving) {
        Some(ratio) => ratio,
        None => unreachable!(),
    }
}

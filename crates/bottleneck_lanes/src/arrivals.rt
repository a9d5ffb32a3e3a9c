//! The lanes on which something arrives.
ghost use Rattle.std.specs.Prelude.{◌↔◌, IsTrue};
ghost use Rattle.bottleneck_lanes.specs.Critical.{HasArrival, AreArriving, HasEachArrival};

use junction_model::Junction;
use plan_model::ALL_LANES;
use sig_base::{LaneSet, MOST_LANES};

/// Whether there is a lane of this number on which something arrives.
fn has_arrival(junction: &Junction, lane: usize) -> bool
    ensures { IsTrue result ↔ HasArrival junction.now lane }
{
    let lanes = junction.lanes();
    lane < lanes.len() && lanes[lane].arrival >= 1
}

/// The lanes on which something arrives.
pub fn arriving_lanes(junction: &Junction) -> LaneSet
    ensures arriving { AreArriving junction.now result }
    ensures each { HasEachArrival junction.now result }
{
    junction.rules();
    let mut lanes = ALL_LANES;
    for lane in 0..MOST_LANES {
        if !has_arrival(junction, lane) {
            lanes = lanes.without(lane);
        }
    }
    lanes
}

ghost use Rattle.std.specs.Prelude.{◌≡◌, ◌≤◌, ◌<◌, ◌*◌, IfOk, OnOk};
ghost use Rattle.sample_junctions.specs.Draws.{state_after};
ghost use Rattle.sample_junctions.specs.Parts.{sample_lane, drawn_lanes};

use crate::draws::Draws;
use crate::label::label;
use flow_model::Lane;
use sig_base::NoMemory;
use std::alloc::Global;

/// How many lanes each group has.
const LANES_OF_A_GROUP: u32 = 2;

/// The flows of a sample, in vehicles per hour: so many from the least one on.
const LEAST_ARRIVAL: u32 = 20;

const ARRIVALS: u32 = 120;

const LEAST_SATURATION: u32 = 1700;

const SATURATIONS: u32 = 301;

fn lane(number: u32, arrival: u32, saturation: u32) -> Lane
    requires { number < 100 }
    ensures { result ≡ sample_lane number arrival saturation }
{
    Lane {
        label: label(b'L', number),
        group: number / LANES_OF_A_GROUP,
        arrival,
        saturation,
        limit: 900,
    }
}

/// The lanes of so many groups, with two draws for the flows of each.
pub fn lanes(alloc: Global, draws: &mut Draws, groups: u32) -> Result<Vec<Lane>, NoMemory>
    requires { groups ≤ 16 }
    ensures lanes { IfOk result (λ lanes. lanes.items ≡ drawn_lanes draws.old.state (2 * groups)) }
    ensures state { OnOk result (draws.new.state ≡ state_after draws.old.state (4 * groups)) }
{
    let mut lanes = Vec::new(alloc);
    for number in 0..LANES_OF_A_GROUP * groups {
        let arrival = LEAST_ARRIVAL + draws.below(ARRIVALS);
        let saturation = LEAST_SATURATION + draws.below(SATURATIONS);
        lanes.push(lane(number, arrival, saturation))?;
    }
    Ok(lanes)
}

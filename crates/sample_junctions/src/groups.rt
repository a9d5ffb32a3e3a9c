ghost use Rattle.std.specs.Prelude.{◌≡◌, ◌≤◌, ◌<◌, IfOk, OnOk};
ghost use Rattle.sample_junctions.specs.Draws.{state_after};
ghost use Rattle.sample_junctions.specs.Parts.{sample_group, drawn_groups};

use crate::draws::Draws;
use crate::label::label;
use junction_model::Group;
use sig_base::{GroupTimes, LONGEST_GREEN, NoMemory};
use std::alloc::Global;

/// The minimum greens of a sample, in seconds: so many from the shortest one on.
const SHORTEST_MIN_GREEN: u32 = 5;

const MIN_GREENS: u32 = 4;

fn group(number: u32, min_green: u32) -> Group
    requires { number < 100 }
    ensures { result ≡ sample_group number min_green }
{
    Group {
        label: label(b'G', number),
        times: GroupTimes {
            min_green,
            amber: 3,
            red_amber: 2,
            start_lost: 2,
            end_gain: 1,
            max_green: LONGEST_GREEN,
        },
    }
}

/// So many groups, with a draw for the minimum green of each.
pub fn groups(alloc: Global, draws: &mut Draws, count: u32) -> Result<Vec<Group>, NoMemory>
    requires { count ≤ 16 }
    ensures groups { IfOk result (λ groups. groups.items ≡ drawn_groups draws.old.state count) }
    ensures state { OnOk result (draws.new.state ≡ state_after draws.old.state count) }
{
    let mut groups = Vec::new(alloc);
    for number in 0..count {
        let min_green = SHORTEST_MIN_GREEN + draws.below(MIN_GREENS);
        groups.push(group(number, min_green))?;
    }
    Ok(groups)
}

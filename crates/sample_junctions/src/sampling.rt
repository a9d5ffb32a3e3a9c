ghost use Rattle.std.specs.Prelude.{◌≡◌, ◌++◌, ◌≤◌, codes, decimal, IfOk};
ghost use Rattle.sample_junctions.specs.Sample.{IsSample};

use crate::conflicts::conflicts;
use crate::draws::Draws;
use crate::groups::groups;
use crate::lanes::lanes;
use junction_model::Junction;
use sig_base::{NoMemory, Title, put, put_number};
use std::alloc::Global;

/// The limits of the cycle, in seconds.
const LEAST_CYCLE: u32 = 60;

const GREATEST_CYCLE: u32 = 120;

/// The numbers of groups: so many from the fewest on.
const FEWEST_GROUPS: u32 = 8;

const GROUP_COUNTS: u32 = 9;

fn title(alloc: Global, number: u32) -> Result<Title, NoMemory>
    ensures { IfOk result (λ title. title ≡ codes "sample " ++ decimal number) }
{
    let mut text = Vec::new(alloc);
    put(&mut text, "sample ")?;
    put_number(&mut text, number)?;
    let Some(title) = Title::new(&text) else {
        unreachable!()
    };
    Ok(title)
}

/// The sample of a number: a junction of 8 to 16 groups with two lanes each, and without links.
/// Its number of groups, their minimum greens in seconds, the lanes' flows in vehicles per hour,
/// the conflicts and their intergreens in seconds are drawn. Each number has its junction, the same
/// at each call; a number of 2^31 or more has that of the number 2^31 below it, but for the title.
pub fn sample(alloc: Global, number: u32) -> Result<Junction, NoMemory>
    ensures { IfOk result (λ junction. IsSample number junction) }
{
    let title = title(alloc, number)?;
    let mut draws = Draws::new(number);
    let count = FEWEST_GROUPS + draws.below(GROUP_COUNTS);
    let groups = groups(alloc, &mut draws, count)?;
    let lanes = lanes(alloc, &mut draws, count)?;
    let conflicts = conflicts(alloc, &mut draws, count, &groups)?;
    let junction = Junction::new(title, LEAST_CYCLE, GREATEST_CYCLE, groups, lanes, conflicts);
    junction.rules();
    Ok(junction)
}

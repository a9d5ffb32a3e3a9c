ghost use Rattle.std.specs.Prelude.{◌≡◌, ◌<◌, ◌≤◌, ◌+◌, ◌*◌, length, map, [], IfOk};
ghost use Rattle.conflict_matrix.specs.Conflicts.{matrix_of};
ghost use Rattle.conflict_matrix.specs.Entries.{IsTableOf};
ghost use Rattle.junction_model.specs.Rules.{AreConflicts};
ghost use Rattle.sample_junctions.specs.Draws.{state_after};
ghost use Rattle.sample_junctions.specs.Parts.{AreGroupsOfSample};
ghost use Rattle.sample_junctions.specs.Conflicts.{all_pairs, conflict_of, draws_of, drawn_entry, drawn_conflicts};

use crate::draws::Draws;
use crate::pairs::all_pairs;
use conflict_matrix::{Conflicts, Entry};
use junction_model::Group;
use sig_base::{GroupTimes, NoMemory};
use std::alloc::Global;

/// The intergreens of a sample, in seconds: so many from the shortest one on.
const SHORTEST_INTERGREEN: u32 = 5;

const INTERGREENS: u32 = 4;

/// Of pairs that aren't neighbours one in so many conflicts.
const PAIRS_FOR_A_CONFLICT: u32 = 3;

fn entry(draws: &mut Draws, pair: (u32, u32)) -> Entry
    ensures entry { result ≡ drawn_entry draws.old.state pair }
    ensures state { draws.new.state ≡ state_after draws.old.state 2 }
{
    let a_to_b = SHORTEST_INTERGREEN + draws.below(INTERGREENS);
    let b_to_a = SHORTEST_INTERGREEN + draws.below(INTERGREENS);
    Entry {
        a: pair.0,
        b: pair.1,
        a_to_b,
        b_to_a,
    }
}

/// The conflict of a pair, or `None` where the two don't conflict.
fn conflict(draws: &mut Draws, pair: (u32, u32)) -> Option<Entry>
    requires { pair.0 < pair.1 }
    ensures conflict { result ≡ conflict_of draws.old.state pair }
    ensures state { draws.new.state ≡ state_after draws.old.state (draws_of draws.old.state pair) }
{
    if pair.1 == pair.0 + 1 || draws.below(PAIRS_FOR_A_CONFLICT) == 0 {
        Some(entry(draws, pair))
    } else {
        None
    }
}

/// The conflicts among so many groups, drawn pair by pair.
fn entries(alloc: Global, draws: &mut Draws, groups: u32) -> Result<Vec<Entry>, NoMemory>
    requires { groups ≤ 16 }
    ensures { IfOk result (λ entries.
        entries.items ≡ drawn_conflicts draws.old.state (all_pairs groups)) }
{
    let mut entries = Vec::new(alloc);
    for &pair in &all_pairs(alloc, groups)? {
        if let Some(entry) = conflict(draws, pair) {
            entries.push(entry)?;
        }
    }
    Ok(entries)
}

fn times_of_groups(alloc: Global, groups: &[Group]) -> Result<Vec<GroupTimes>, NoMemory>
    ensures { IfOk result (λ times. times.items ≡ map (λ group. group.times) groups.now) }
{
    Ok(groups.iter().map(|group| group.times).collect(alloc)?)
}

/// The table of the conflicts among so many groups of a sample, drawn pair by pair.
pub fn conflicts(
    alloc: Global,
    draws: &mut Draws,
    count: u32,
    groups: &[Group],
) -> Result<Conflicts, NoMemory>
    requires several { 2 ≤ count }
    requires few { count ≤ 16 }
    requires groups { AreGroupsOfSample count groups.now }
    ensures table { IfOk result (λ c.
        IsTableOf count (drawn_conflicts draws.old.state (all_pairs count)) (matrix_of c)) }
    ensures links { IfOk result (λ c. (matrix_of c).links ≡ []) }
    ensures rules { IfOk result (λ c. AreConflicts groups.now (matrix_of c)) }
{
    let times = times_of_groups(alloc, groups)?;
    let entries = entries(alloc, draws, count)?;
    match Conflicts::new(&times, &entries) {
        Ok(conflicts) => Ok(conflicts),
        Err(_) => unreachable!(),
    }
}

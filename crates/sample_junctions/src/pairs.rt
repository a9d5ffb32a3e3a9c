//! The pairs of groups, the lower one first.
ghost use Rattle.std.specs.Prelude.{◌≡◌, ◌≤◌, ◌<◌, ◌++◌, IfOk, OnOk};
ghost use Rattle.sample_junctions.specs.Conflicts.{pairs_above, all_pairs};

use sig_base::NoMemory;
use std::alloc::Global;

fn put_pairs_above(pairs: &mut Vec<(u32, u32)>, count: u32, i: u32) -> Result<(), NoMemory>
    requires { i < count }
    ensures { OnOk result (pairs.new.items ≡ pairs.old.items ++ pairs_above count i) }
{
    for j in i + 1..count {
        pairs.push((i, j))?;
    }
    Ok(())
}

/// All pairs of so many groups, by their lower groups, then by their higher ones.
pub fn all_pairs(alloc: Global, count: u32) -> Result<Vec<(u32, u32)>, NoMemory>
    ensures { IfOk result (λ pairs. pairs.items ≡ all_pairs count) }
{
    let mut pairs = Vec::new(alloc);
    for i in 0..count {
        put_pairs_above(&mut pairs, count, i)?;
    }
    Ok(pairs)
}

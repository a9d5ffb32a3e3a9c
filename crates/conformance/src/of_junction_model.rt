use junction_files::{print, read};
use junction_model::Junction;
use samples::texts::with_cycles;
use samples::{CROSSROADS, EARLY_START, PAIR, RING};
use std::alloc::Global;
use std::test::Fail;

/// The nodes that the search trees of all cycles can have: one leaf at one cycle, 3 nodes at each of 22
/// cycles for one pair without group 0, 7 at each of 37 cycles for one pair and one link, 1023 at each of
/// 81 cycles for nine pairs.
#[test]
fn nodes_of_search_trees(rt: HostRuntime) -> Result<(), Fail> {
    for (text, covers) in [
        (PAIR, 1),
        (RING, 66),
        (EARLY_START, 259),
        (CROSSROADS, 82863),
    ] {
        let junction = read(rt.alloc(), text.as_bytes())?;
        junction.rules();
        assert_eq!(rt; junction.covers(), covers);
    }
    Ok(())
}

fn narrowed(alloc: Global, junction: &Junction, cycle: u32) -> Result<Junction, Fail> {
    if cycle < junction.least_cycle() || cycle > junction.greatest_cycle() {
        return Err(Fail::new("another cycle"));
    }
    Ok(junction.narrow(alloc, cycle)?)
}

/// A junction with one cycle alone is that of the file with this cycle; the early start has a link
/// and a longest green.
#[test]
fn one_cycle_alone(rt: HostRuntime) -> Result<(), Fail> {
    let alloc = rt.alloc();
    for (text, cycle) in [
        (PAIR, 60),
        (EARLY_START, 24),
        (EARLY_START, 60),
        (CROSSROADS, 77),
    ] {
        let junction = read(alloc, text.as_bytes())?;
        let alone = with_cycles(alloc, text, cycle, cycle)?;
        let want = print(alloc, &read(alloc, alone.as_bytes())?)?;
        let seen = print(alloc, &narrowed(alloc, &junction, cycle)?)?;
        assert_eq!(rt; seen.as_slice(), want.as_slice());
    }
    Ok(())
}

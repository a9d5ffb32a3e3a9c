//! Trees of the best plan, which are trimmed.
use crate::answer_texts::{ending, tree_text};
use capacity_search::capacity;
use cycle_orders::Answer;
use junction_files::read;
use samples::texts::{changed, with_cycles};
use samples::{CROSSROADS, RING};
use sig_base::Ratio;
use std::test::Fail;

/// The search visits 2809 nodes; for their targets beside the plan the trees need 1349 of them.
#[test]
fn the_trees_of_a_crossroads(rt: HostRuntime) -> Result<(), Fail> {
    let alloc = rt.alloc();
    let junction = read(alloc, CROSSROADS.as_bytes())?;
    let flows = Ratio::new(1, 1).ok_or("no ratio")?;
    let (text, sizes) = ending(alloc, &capacity(alloc, &junction, flows, 200_000)?)?;
    assert_eq!(rt; sizes, (81, 1349), "{text}");
    Ok(())
}

/// The ring with two busy groups: at 34 seconds these need greens of 12 to reach 81/59 times their arrivals, and there
/// and back between them takes 12 + 3 + 12 + 8 = 35. To reach none of the flows, 20 + 3 + 8 fit, and the pair of the
/// others was decided.
#[test]
fn the_first_tree_of_a_ring(rt: HostRuntime) -> Result<(), Fail> {
    let alloc = rt.alloc();
    let first = changed(alloc, RING, "arrival = 100", "arrival = 400")?;
    let second = changed(alloc, &first, "arrival = 100", "arrival = 400")?;
    let third = changed(alloc, &second, "arrival = 100", "arrival = 10")?;
    let text = with_cycles(alloc, &third, 34, 59)?;
    let junction = read(alloc, text.as_bytes())?;
    let none = Ratio::new(0, 1).ok_or("no ratio")?;
    let Answer::Optimal(_, forest) = capacity(alloc, &junction, none, 200_000)? else {
        return Err(Fail::new("no plan"));
    };
    let first = forest.items().first().ok_or("no tree")?;
    let seen = tree_text(alloc, first)?;
    assert_eq!(rt; seen.as_str(), " [0, 1]");
    Ok(())
}

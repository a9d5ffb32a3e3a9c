//! Plans of the greatest multiplier, worked out by hand or by another program.
mod trees;

use crate::answer_texts::ending;
use capacity_search::capacity;
use cycle_orders::Answer;
use junction_files::read;
use plan_model::plan_multiplier;
use samples::crowd::crowd;
use samples::pair::{BUSY, COMMON, QUIET, Side, bounded_pair, pair};
use samples::texts::{changed, with_cycles};
use samples::{CROSSROADS, PAIR, RING};
use sig_base::Ratio;
use std::alloc::Global;
use std::process::Abort;
use std::test::Fail;

/// The least multiple, the budget, how the search ends, and how many trees and visited nodes its forest has.
type Row<'a> = ((u64, u64), u64, &'a str, (usize, usize));

fn check(rt: &impl Abort, alloc: Global, file: &str, rows: &[Row]) -> Result<(), Fail> {
    let junction = read(alloc, file.as_bytes())?;
    for (k, ((num, den), budget, want, sizes)) in rows.iter().enumerate() {
        let least = Ratio::new(*num, *den).ok_or("no ratio")?;
        let seen = ending(alloc, &capacity(alloc, &junction, least, *budget)?)?;
        assert_eq!(rt; (seen.0.as_str(), seen.1), (*want, *sizes), "row {k}");
    }
    Ok(())
}

const EVEN: &str = "optimal cycle 60 starts [0, 30] greens [25, 25] multiplier 3/2";

/// Greens of 25 and intergreens of 5 fill the cycle of 60.
#[test]
fn two_groups(rt: HostRuntime) -> Result<(), Fail> {
    check(
        &rt,
        rt.alloc(),
        PAIR,
        &[
            ((1, 1), 200_000, EVEN, (1, 1)),
            ((3, 2), 1, EVEN, (1, 1)),
            ((0, 1), 1, EVEN, (1, 1)),
            ((2, 1), 1, "infeasible", (1, 1)),
        ],
    )
}

/// 33 seconds serve 297/200 times the busy group's arrivals, and 17 the quiet one's; to beat that takes 34 and 17.
#[test]
fn two_groups_that_differ(rt: HostRuntime) -> Result<(), Fail> {
    let alloc = rt.alloc();
    let plan = "optimal cycle 60 starts [0, 38] greens [33, 17] multiplier 297/200";
    let text = pair(alloc, (60, 60), BUSY, QUIET, (5, 5))?;
    check(&rt, alloc, &text, &[((1, 1), 1, plan, (1, 1))])
}

/// 16 seconds at 42 serve 48/35 times the arrivals; at 41 as at 40 no more than 15 fit.
#[test]
fn three_cycles(rt: HostRuntime) -> Result<(), Fail> {
    let alloc = rt.alloc();
    let of_40 = "stopped cycle 40 starts [0, 20] greens [15, 15] multiplier 27/20";
    let of_42 = "optimal cycle 42 starts [0, 21] greens [16, 16] multiplier 48/35";
    let text = pair(alloc, (40, 42), COMMON, COMMON, (5, 5))?;
    check(
        &rt,
        alloc,
        &text,
        &[
            ((1, 1), 3, of_42, (3, 3)),
            ((1, 1), 2, of_40, (3, 2)),
            ((1, 1), 1, of_40, (2, 1)),
        ],
    )
}

/// Half of the cycle serves 9/5 times the arrivals at 20 seconds and at 22.
#[test]
fn the_shorter_of_two_cycles(rt: HostRuntime) -> Result<(), Fail> {
    let alloc = rt.alloc();
    let quick = Side {
        min_green: 1,
        amber: 0,
        red_amber: 0,
        ..COMMON
    };
    let plan = "optimal cycle 20 starts [0, 10] greens [10, 10] multiplier 9/5";
    let text = pair(alloc, (20, 22), quick, quick, (0, 0))?;
    check(&rt, alloc, &text, &[((1, 1), 3, plan, (3, 3))])
}

/// A may be green for 20 seconds, which serve 6/5 times its arrivals.
#[test]
fn a_longest_green(rt: HostRuntime) -> Result<(), Fail> {
    let text = bounded_pair(rt.alloc())?;
    let plan = "optimal cycle 60 starts [0, 25] greens [20, 20] multiplier 6/5";
    check(&rt, rt.alloc(), &text, &[((1, 1), 1, plan, (1, 1))])
}

/// Five of the groups one after another take 310 seconds.
#[test]
fn sixteen_groups(rt: HostRuntime) -> Result<(), Fail> {
    let text = crowd(rt.alloc())?;
    check(
        &rt,
        rt.alloc(),
        &text,
        &[
            ((1, 1), 55, "infeasible", (1, 55)),
            ((1, 1), 54, "stopped none", (1, 54)),
        ],
    )
}

/// A budget that ends with a cycle's tree leaves the next cycle's unvisited.
#[test]
fn a_ring_that_is_stopped(rt: HostRuntime) -> Result<(), Fail> {
    let text = with_cycles(rt.alloc(), RING, 30, 38)?;
    check(
        &rt,
        rt.alloc(),
        &text,
        &[
            ((1, 1), 1, "stopped none", (2, 1)),
            ((1, 1), 2, "stopped none", (2, 2)),
            ((1, 1), 24, "stopped none", (9, 24)),
            ((1, 1), 25, "infeasible", (9, 25)),
        ],
    )
}

/// The cycle and the multiplier of the best plan, over so many cycles.
fn check_best(
    rt: &impl Abort,
    alloc: Global,
    file: &str,
    least: (u64, u64),
    want: (u32, Option<Ratio>, usize),
) -> Result<(), Fail> {
    let junction = read(alloc, file.as_bytes())?;
    let least = Ratio::new(least.0, least.1).ok_or("no ratio")?;
    let Answer::Optimal(plan, forest) = capacity(alloc, &junction, least, 200_000)? else {
        return Err(Fail::new("no plan"));
    };
    let seen = (
        plan.plan().cycle(),
        Some(plan_multiplier(&plan)),
        forest.items().len(),
    );
    assert_eq!(rt; seen, want);
    Ok(())
}

/// The lane E1 has 49 effective seconds of 119, which serve 900 * 1900 * 49 over 1000 * 560 * 119 times its arrivals.
#[test]
fn a_crossroads(rt: HostRuntime) -> Result<(), Fail> {
    let want = (119, Ratio::new(171, 136), 81);
    check_best(&rt, rt.alloc(), CROSSROADS, (1, 1), want)
}

/// The ring with two busy groups: 20 seconds of 59 serve 81/59 times their arrivals, and three of its steps fill it.
#[test]
fn a_ring_of_two_busy_groups(rt: HostRuntime) -> Result<(), Fail> {
    let alloc = rt.alloc();
    let first = changed(alloc, RING, "arrival = 100", "arrival = 400")?;
    let second = changed(alloc, &first, "arrival = 100", "arrival = 400")?;
    let third = changed(alloc, &second, "arrival = 100", "arrival = 10")?;
    let text = with_cycles(alloc, &third, 34, 59)?;
    check_best(&rt, alloc, &text, (0, 1), (59, Ratio::new(81, 59), 26))
}

//! Plans of the shortest cycle, worked out by hand.
use crate::answer_texts::ending;
use cycle_search::shortest;
use junction_files::read;
use samples::pair::{SATURATED, pair, short_pair};
use samples::texts::{changed, with_cycles};
use samples::{CHAIN, EARLY_START, PAIR, RING};
use sig_base::Ratio;
use std::alloc::Global;
use std::process::Abort;
use std::test::Fail;

/// The budget, how a search for plans that carry the flows ends, and how many trees and visited nodes its forest has.
type Row<'a> = (u64, &'a str, (usize, usize));

fn check(rt: &impl Abort, alloc: Global, file: &str, rows: &[Row]) -> Result<(), Fail> {
    let junction = read(alloc, file.as_bytes())?;
    let flows = Ratio::new(1, 1).ok_or("no ratio")?;
    for (k, (budget, want, sizes)) in rows.iter().enumerate() {
        let seen = ending(alloc, &shortest(alloc, &junction, flows, *budget)?)?;
        assert_eq!(rt; (seen.0.as_str(), seen.1), (*want, *sizes), "row {k}");
    }
    Ok(())
}

/// Each group needs four tenths of the cycle, and 4 seconds are lost. At 21 seconds greens of 9 would take 22.
#[test]
fn two_groups(rt: HostRuntime) -> Result<(), Fail> {
    let alloc = rt.alloc();
    let of_20 = "optimal cycle 20 starts [0, 10] greens [8, 8] multiplier 1/1";
    let text = pair(alloc, (10, 60), SATURATED, SATURATED, (2, 2))?;
    check(&rt, alloc, &text, &[(11, of_20, (10, 10))])?;
    let of_22 = "optimal cycle 22 starts [0, 11] greens [9, 9] multiplier 45/44";
    let later = pair(alloc, (21, 60), SATURATED, SATURATED, (2, 2))?;
    check(&rt, alloc, &later, &[(200_000, of_22, (1, 1))])
}

/// Three steps forth take 39 seconds. At 30 the root order closes, and at each cycle from 31 to 38 both orders.
#[test]
fn a_ring(rt: HostRuntime) -> Result<(), Fail> {
    let alloc = rt.alloc();
    let plan = "optimal cycle 39 starts [0, 13, 26] greens [10, 10, 10] multiplier 54/13";
    check(
        &rt,
        alloc,
        RING,
        &[
            (200_000, plan, (0, 0)),
            (2, plan, (0, 0)),
            (1, "stopped none", (1, 1)),
        ],
    )?;
    let text = with_cycles(alloc, RING, 30, 38)?;
    check(
        &rt,
        alloc,
        &text,
        &[
            (25, "infeasible", (9, 25)),
            (24, "stopped none", (9, 24)),
            (1, "stopped none", (2, 1)),
        ],
    )
}

/// Where C starts with A, two waits of 12 fill a cycle of 24. With a link from A to C three waits of 10, 12 and 12
/// fill one of 34; of the ten shorter cycles the least has 5 nodes, since there B can't start before C, and each other one 7.
#[test]
fn a_chain_with_and_without_a_link(rt: HostRuntime) -> Result<(), Fail> {
    let of_24 = "optimal cycle 24 starts [0, 12, 0] greens [7, 7, 7] multiplier 189/40";
    check(&rt, rt.alloc(), CHAIN, &[(200_000, of_24, (0, 0))])?;
    let of_34 = "optimal cycle 34 starts [0, 22, 10] greens [7, 7, 7] multiplier 567/170";
    check(&rt, rt.alloc(), EARLY_START, &[(200_000, of_34, (10, 68))])
}

/// The group C, like B, in conflict with B.
const THIRD: &str = "
[[group]]
name = \"C\"
min_green = 7
amber = 3
red_amber = 2
start_lost = 0
end_gain = 0
max_green = 16

[[lane]]
name = \"C1\"
group = \"C\"
arrival = 450
saturation = 1800

[[conflict]]
a = \"B\"
b = \"C\"
a_to_b = 5
b_to_a = 5
";

/// 450 vehicles of 1800 at nine tenths need 17 seconds of 60: a group that may have 16 closes the root order by itself.
#[test]
fn longest_greens(rt: HostRuntime) -> Result<(), Fail> {
    let alloc = rt.alloc();
    let both = short_pair(alloc)?;
    check(&rt, alloc, &both, &[(1, "infeasible", (1, 1))])?;
    let second = changed(alloc, PAIR, "version = 1", "version = 2")?;
    let third = format!(in alloc; "{second}{THIRD}")?;
    check(&rt, alloc, &third, &[(1, "infeasible", (1, 1))])
}

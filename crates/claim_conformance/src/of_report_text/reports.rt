use super::plans::{BEGUN, BRIEF, CROSSED, EVEN, NONE, SHORT};
use super::{reported, summed};
use samples::pair::{SATURATED, pair};
use samples::{CROSSROADS, PAIR, RING};
use std::test::Fail;

/// 900 * 1800 * 25 over 1000 * 450 * 60 is 3/2; 450 * 60 over 1800 * 25 is 3/5.
const OF_EVEN: &str = "junction pair
claim capacity
least 1/1
nodes 1
cycle 60
multiplier 3/2
reserve 50/1 per cent
group A start 0 green 25
group B start 30 green 25
lane A1 saturation 3/5 delay 1549/100
lane B1 saturation 3/5 delay 1549/100
stage 1 first 0 seconds 25 groups A
stage 2 first 30 seconds 25 groups B
";

#[test]
fn a_plan_of_two_groups(rt: HostRuntime) -> Result<(), Fail> {
    let text = reported(&rt, rt.alloc(), PAIR, EVEN)?;
    assert_eq!(rt; text.as_slice(), OF_EVEN.as_bytes());
    Ok(())
}

/// 720 * 20 arrive and 1800 * 8 can leave: 14400 both.
const OF_BRIEF: &str = "junction pair
claim cycle
least 1/1
nodes 10
cycle 20
multiplier 1/1
reserve 0/1 per cent
group A start 0 green 8
group B start 10 green 8
lane A1 saturation 1/1 delay over
lane B1 saturation 1/1 delay over
stage 1 first 0 seconds 8 groups A
stage 2 first 10 seconds 8 groups B
";

#[test]
fn a_plan_without_reserve(rt: HostRuntime) -> Result<(), Fail> {
    let file = pair(rt.alloc(), (10, 60), SATURATED, SATURATED, (2, 2))?;
    let text = reported(&rt, rt.alloc(), &file, BRIEF)?;
    assert_eq!(rt; text.as_slice(), OF_BRIEF.as_bytes());
    Ok(())
}

/// 900 * 1800 * 7 over 1000 * 450 * 60 is 21/50, 58 per cent less than 1; 450 * 60 over 1800 * 7 is 15/7.
const OF_SHORT: &str = "junction pair
claim stopped
least 0/1
nodes 0
cycle 60
multiplier 21/50
reserve -58/1 per cent
group A start 0 green 7
group B start 30 green 7
lane A1 saturation 15/7 delay over
lane B1 saturation 15/7 delay over
stage 1 first 0 seconds 7 groups A
stage 2 first 30 seconds 7 groups B
";

#[test]
fn a_plan_below_its_flows(rt: HostRuntime) -> Result<(), Fail> {
    let text = reported(&rt, rt.alloc(), PAIR, SHORT)?;
    assert_eq!(rt; text.as_slice(), OF_SHORT.as_bytes());
    Ok(())
}

/// N has 900 * 1800 * 24 over 1000 * 420 * 90, which is 36/35; W 900 * 1900 * 29 over 1000 * 540 * 90, which is 551/540.
/// E2 has 900 * 1850 * 30 over 1000 * 520 * 90, which is 111/104. The least, 57/56, is that of E1: 900 * 1900 * 30 over
/// 1000 * 560 * 90.
const OF_CROSSED: &str = "multiplier 57/56
reserve 25/14 per cent
group N start 0 green 25
";

/// Nothing arrives on W2: 9 * 61^2 * 1800 over 20 * 90 * 1800 seconds of delay.
const ENDS_CROSSED: &str = "stage 1 first 0 seconds 23 groups N S
stage 2 first 23 seconds 2 groups N
stage 3 first 30 seconds 6 groups E W P
stage 4 first 36 seconds 24 groups E W
stage 5 first 60 seconds 1 groups E
stage 6 first 65 seconds 1 groups ER Q
stage 7 first 66 seconds 5 groups ER WR Q
stage 8 first 71 seconds 2 groups ER WR
stage 9 first 73 seconds 2 groups WR
";

#[test]
fn a_plan_of_the_crossroads(rt: HostRuntime) -> Result<(), Fail> {
    let text = reported(&rt, rt.alloc(), CROSSROADS, CROSSED)?;
    let text = str::from_utf8(&text)?;
    assert!(rt; text.contains(OF_CROSSED));
    assert!(rt; text.contains("\nlane W2 saturation 0/1 delay 3721/200\n"));
    assert!(rt; text.ends_with(ENDS_CROSSED));
    Ok(())
}

const OF_NONE: &str = "junction ring
claim infeasible
least 1/1
nodes 25
";

#[test]
fn no_plan(rt: HostRuntime) -> Result<(), Fail> {
    let text = reported(&rt, rt.alloc(), RING, NONE)?;
    assert_eq!(rt; text.as_slice(), OF_NONE.as_bytes());
    Ok(())
}

#[test]
fn summaries(rt: HostRuntime) -> Result<(), Fail> {
    let even = summed(&rt, rt.alloc(), 5, PAIR, EVEN)?;
    assert_eq!(rt;
        even.as_slice(),
        b"sample 5\ngroups 2\nlanes 2\nconflicts 1\nclaim capacity\nnodes 1\ncycle 60\nmultiplier 3/2\nverdict proved\n".as_slice()
    );
    let begun = summed(&rt, rt.alloc(), 0, RING, BEGUN)?;
    assert_eq!(rt;
        begun.as_slice(),
        b"sample 0\ngroups 3\nlanes 3\nconflicts 3\nclaim stopped\nnodes 1\nverdict partial\n".as_slice()
    );
    Ok(())
}

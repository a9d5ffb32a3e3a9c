//! Lanes that hold the multiplier down, worked out by hand. At a limit of 900 per mille, where 1800
//! vehicles per hour could flow and the cycle is 60, a green of g serves 27 * g / q times the
//! arrivals q of its lane. In what is expected `'` stands for the quotation mark.
use bottleneck_lanes::{bottleneck, critical_law, write_bottleneck};
use capacity_search::capacity;
use cycle_orders::Answer;
use junction_files::read;
use samples::pair::{BUSY, COMMON, QUIET, Side, pair};
use samples::texts::{changed, with_cycles};
use samples::{CHAIN, EARLY_START};
use sig_base::Ratio;
use std::alloc::Global;
use std::process::Abort;
use std::test::Fail;

/// The text of the answer for the best plan, where each test of a lane may visit so many nodes.
fn answer_text(alloc: Global, file: &str, budget: u64) -> Result<String, Fail> {
    critical_law();
    let junction = read(alloc, file.as_bytes())?;
    junction.rules();
    let none = Ratio::new(0, 1).ok_or("no ratio")?;
    let Answer::Optimal(best, forest) = capacity(alloc, &junction, none, 200_000)? else {
        return Err(Fail::new("no best plan"));
    };
    let answer = bottleneck(alloc, &best, &forest, budget)?;
    Ok(String::from_utf8(write_bottleneck(alloc, &best, budget, &answer)?)?)
}

/// Whether each of the parts stands in the text.
fn check(
    rt: &impl Abort,
    alloc: Global,
    file: &str,
    budget: u64,
    parts: &[&str],
) -> Result<(), Fail> {
    let text = answer_text(alloc, file, budget)?;
    for part in parts.iter() {
        let part = part.replace(alloc, "'", "\"")?;
        assert!(rt; text.contains(part.as_str()), "{part} in {text}");
    }
    Ok(())
}

const TREE: &str = "'branches':[[[0,1]]]";

const WITHOUT_A: &str = "{'cycle':60,'greens':[7,17],'starts':[0,12]}";

const WITHOUT_B: &str = "{'cycle':60,'greens':[34,7],'starts':[0,39]}";

/// A green of 33 serves 297/200 times the 600 of A, one of 17 more of the 300 of B, and with the
/// intergreens they fill the cycle. To beat that takes 34 and 17, which is 61 with the intergreens:
/// the walk from A to B and back. Without A1 its group needs 7 alone, so B starts at 12; without B1
/// so does B, which starts at 34 + 5. One node is enough for each test.
#[test]
fn two_lanes(rt: HostRuntime) -> Result<(), Fail> {
    let alloc = rt.alloc();
    let file = pair(alloc, (60, 60), BUSY, QUIET, (5, 5))?;
    let best = "{'cycle':60,'greens':[33,17],'starts':[0,38]}";
    let plans = format!(in alloc; "[{WITHOUT_A},{WITHOUT_B}]")?;
    let found = format!(in alloc; "'lanes':[0,1],'plan':{best},'plans':{plans},'tested':null")?;
    let want = format!(in alloc; "{{{TREE},'budget':1,{found},'version':1}}")?;
    let text = answer_text(alloc, &file, 1)?;
    assert_eq!(rt; text, want.replace(alloc, "'", "\"")?);
    Ok(())
}

/// The same with a third lane, of group A: where little arrives on it, it is left out; where as
/// much as on A1, then A1 is, which is tested first.
#[test]
fn a_third_lane(rt: HostRuntime) -> Result<(), Fail> {
    let alloc = rt.alloc();
    let two = pair(alloc, (60, 60), BUSY, QUIET, (5, 5))?;
    let lane = "[[lane]]\nname = \"A2\"\ngroup = \"A\"\nsaturation = 1800\narrival = ";
    let quiet = format!(in alloc; "{two}{lane}10\n")?;
    let plans = format!(in alloc; "'plans':[{WITHOUT_A},{WITHOUT_B}]")?;
    check(&rt, alloc, &quiet, 1, &[TREE, "'lanes':[0,1]", &plans])?;
    let busy = format!(in alloc; "{two}{lane}600\n")?;
    let plans = format!(in alloc; "'plans':[{WITHOUT_B},{WITHOUT_A}]")?;
    check(&rt, alloc, &busy, 1, &[TREE, "'lanes':[1,2]", &plans])
}

/// Nothing arrives on B1, so A may be green for 43 seconds, and to beat that takes 44 + 7, which is
/// 61 with the intergreens. Without A1 each plan that fits will do.
#[test]
fn one_lane_alone(rt: HostRuntime) -> Result<(), Fail> {
    let alloc = rt.alloc();
    let none = Side {
        arrival: 0,
        ..COMMON
    };
    let file = pair(alloc, (60, 60), COMMON, none, (5, 5))?;
    let plans = "'plans':[{'cycle':60,'greens':[7,7],'starts':[0,12]}]";
    check(&rt, alloc, &file, 1, &[TREE, "'lanes':[0]", plans])
}

/// Greens of 25 fill the cycle, by B and C as by A and B. To beat that takes 26, and B and C alone
/// hold it. That needs the pair of B and C decided, and both ways closed: three nodes, which are
/// all that a tree can have here. Without B1 or C1 the other green is 26; B starts behind A, and C
/// behind B.
#[test]
fn a_stopped_test(rt: HostRuntime) -> Result<(), Fail> {
    let alloc = rt.alloc();
    let file = with_cycles(alloc, CHAIN, 60, 60)?;
    let stopped = "'branches':[[1,null,null]],'budget':1,'lanes':[0,1,2]";
    check(&rt, alloc, &file, 1, &[stopped, "'plans':[],'tested':0"])?;
    let of_c = "{'cycle':60,'greens':[7,7,26],'starts':[0,12,24]}";
    let of_b = "{'cycle':60,'greens':[7,26,7],'starts':[0,12,43]}";
    let plans = format!(in alloc; "'plans':[{of_c},{of_b}],'tested':null")?;
    check(&rt, alloc, &file, 3, &["'lanes':[1,2]", &plans])
}

/// A may be green for 16 seconds, and no green of it beats the multiplier of that. B and C may have
/// 17: C starts 10 seconds after A and ends at 27, so B starts at 32.
#[test]
fn a_link_and_a_longest_green(rt: HostRuntime) -> Result<(), Fail> {
    let alloc = rt.alloc();
    let short = changed(alloc, EARLY_START, "max_green = 20", "max_green = 16")?;
    let file = with_cycles(alloc, &short, 60, 60)?;
    let plans = "'plans':[{'cycle':60,'greens':[7,17,17],'starts':[0,32,10]}]";
    check(&rt, alloc, &file, 200_000, &["'lanes':[0]", plans])
}

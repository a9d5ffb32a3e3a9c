//! Curves over the cycle, worked out by hand, and what is found of texts that are to be such.
use certificate_checker::Rule;
use cycle_curve::CurveFault::{Lines, NotJson, Range, Shape};
use cycle_curve::CurveVerdict::{Broken, Claim, Partial, Proved};
use cycle_curve::{CurveFault, CurveVerdict, check_curve, curve, write_curve};
use junction_files::read;
use junction_model::Junction;
use plan_model::PlanFault;
use samples::pair::bounded_pair;
use samples::texts::with_cycles;
use samples::{EARLY_START, PAIR, RING};
use std::alloc::{AllocError, Global};
use std::test::Fail;

/// A green g serves 3.6 g / C times the arrivals, and two greens lose 10 seconds. At 40 seconds 15
/// each serve 27/20; to beat that takes 16 + 5 + 16 + 5, which is above 40.
const AT_40: &str = "{\"branches\":[[[0,1]]],\"budget\":1,\"claim\":\"capacity\",\"least\":[0,1],\
    \"plan\":{\"cycle\":40,\"greens\":[15,15],\"starts\":[0,20]},\"version\":1}\n";

/// At 41 seconds 15 serve 54/41, and 42 are above 41; B may be green a second longer.
const AT_41: &str = "{\"branches\":[[[0,1]]],\"budget\":1,\"claim\":\"capacity\",\"least\":[0,1],\
    \"plan\":{\"cycle\":41,\"greens\":[15,16],\"starts\":[0,20]},\"version\":1}\n";

/// At 42 seconds 16 each serve 48/35. The line without its end.
const AT_42: &str = "{\"branches\":[[[0,1]]],\"budget\":1,\"claim\":\"capacity\",\"least\":[0,1],\
    \"plan\":{\"cycle\":42,\"greens\":[16,16],\"starts\":[0,21]},\"version\":1}";

/// The minimum greens take 7 + 5 + 7 + 5 seconds.
const AT_23: &str = "{\"branches\":[[[0,1]]],\"budget\":1,\"claim\":\"infeasible\",\
    \"least\":[0,1],\"plan\":null,\"version\":1}\n";

/// At 24 seconds 7 each serve 21/20.
const AT_24: &str = "{\"branches\":[[[0,1]]],\"budget\":1,\"claim\":\"capacity\",\"least\":[0,1],\
    \"plan\":{\"cycle\":24,\"greens\":[7,7],\"starts\":[0,12]},\"version\":1}\n";

/// A may be green for 20 seconds, which serve 6/5 at 60 seconds, and no longer green serves more.
const BOUNDED: &str = "{\"branches\":[[[0]]],\"budget\":1,\"claim\":\"capacity\",\"least\":[0,1],\
    \"plan\":{\"cycle\":60,\"greens\":[20,30],\"starts\":[0,25]},\"version\":2}\n";

fn joined(alloc: Global, parts: &[&str]) -> Result<String, AllocError> {
    let mut text = String::new(alloc);
    for part in parts {
        text.push_str(part)?;
    }
    Ok(text)
}

fn curve_text(alloc: Global, junction: &Junction, budget: u64) -> Result<Vec<u8>, Fail> {
    if budget == 0 {
        return Err(Fail::new("no budget"));
    }
    let rows = curve(alloc, junction, budget)?;
    Ok(write_curve(alloc, &rows)?)
}

#[test]
fn worked_curves(rt: HostRuntime) -> Result<(), Fail> {
    let alloc = rt.alloc();
    let bounded = bounded_pair(alloc)?;
    let worked: [(&str, (u32, u32), &[&str]); 3] = [
        (PAIR, (40, 42), &[AT_40, AT_41, AT_42, "\n"]),
        (PAIR, (23, 24), &[AT_23, AT_24]),
        (bounded.as_str(), (60, 60), &[BOUNDED]),
    ];
    for (file, (least, greatest), want) in worked {
        let text = with_cycles(alloc, file, least, greatest)?;
        let junction = read(alloc, text.as_bytes())?;
        let bytes = curve_text(alloc, &junction, 1)?;
        let want = joined(alloc, want)?;
        assert_eq!(rt; bytes.as_slice(), want.as_bytes(), "{want}");
        let found = check_curve(alloc, &junction, bytes.as_slice());
        assert_eq!(rt; found, Ok(Proved), "{want}");
    }
    Ok(())
}

/// A cycle's tree of the ring has 3 nodes where both orders of B and C close, as from 31 to 38
/// seconds; at 30 the root closes. That of the early start, which has a link and a longest green,
/// has 7 nodes at 33 seconds, and never more.
const ENDINGS: [(&str, (u32, u32), u64, CurveVerdict); 6] = [
    (RING, (30, 30), 1, Proved),
    (RING, (30, 31), 1, Partial),
    (RING, (30, 31), 2, Partial),
    (RING, (30, 39), 3, Proved),
    (EARLY_START, (33, 34), 6, Partial),
    (EARLY_START, (33, 35), 7, Proved),
];

#[test]
fn budgets(rt: HostRuntime) -> Result<(), Fail> {
    let alloc = rt.alloc();
    for (file, (least, greatest), budget, want) in ENDINGS {
        let text = with_cycles(alloc, file, least, greatest)?;
        let junction = read(alloc, text.as_bytes())?;
        let bytes = curve_text(alloc, &junction, budget)?;
        let found = check_curve(alloc, &junction, bytes.as_slice());
        assert_eq!(rt; found, Ok(want), "{least} to {greatest} with {budget}");
    }
    Ok(())
}

/// It claims a shortest cycle.
const SHORTEST: &str = "{\"branches\":[],\"budget\":1,\"claim\":\"cycle\",\"least\":[0,1],\
    \"plan\":{\"cycle\":40,\"greens\":[15,15],\"starts\":[0,20]},\"version\":1}\n";

/// It asks for the flows as they are, by a search that visited no node of its budget.
const OF_LEAST_1: &str = "{\"branches\":[[null]],\"budget\":1,\"claim\":\"stopped\",\
    \"least\":[1,1],\"plan\":null,\"version\":1}\n";

/// A search that visited no node of its budget.
const UNSPENT: &str = "{\"branches\":[[null]],\"budget\":1,\"claim\":\"stopped\",\
    \"least\":[0,1],\"plan\":null,\"version\":1}\n";

/// At 40 seconds 14 serve 63/50, which 15 each beat: 15 + 5 + 15 + 5 are the cycle.
const BEATEN: &str = "{\"branches\":[[[0,1]]],\"budget\":1,\"claim\":\"capacity\",\"least\":[0,1],\
    \"plan\":{\"cycle\":40,\"greens\":[14,16],\"starts\":[0,19]},\"version\":1}\n";

/// A node stands after the whole tree.
const TOO_MANY: &str = "{\"branches\":[[[0,1],[0,1]]],\"budget\":1,\"claim\":\"capacity\",\
    \"least\":[0,1],\"plan\":{\"cycle\":41,\"greens\":[15,16],\"starts\":[0,20]},\"version\":1}\n";

/// It has a budget of 0.
const NO_BUDGET: &str = "{\"branches\":[[[0,1]]],\"budget\":0,\"claim\":\"infeasible\",\
    \"least\":[0,1],\"plan\":null,\"version\":1}\n";

const ANOTHER_CYCLE: Rule = Rule::Fit(PlanFault::CycleLimit);

/// What is found of texts that are to be the curve of the pair from 40 to 42 seconds.
const TEXTS: [(&[&str], Result<CurveVerdict, CurveFault>); 21] = [
    (&[], Err(Lines)),
    (&["\n"], Err(Lines)),
    (&[AT_40, AT_41], Err(Lines)),
    (&[AT_40, AT_41, AT_42], Err(Lines)),
    (&[AT_40, AT_41, AT_42, "\n", " "], Err(Lines)),
    (&[AT_40, AT_41, AT_42, "\n", "\n"], Err(Lines)),
    (&[AT_40, AT_41, AT_42, "\r\n"], Ok(Proved)),
    (&[AT_40, "\n", AT_42, "\n"], Err(NotJson(2))),
    (&[AT_40, "[]\n", "\n"], Err(Shape(2))),
    (&[NO_BUDGET, "\n", "\n"], Err(Range(1))),
    (&[BEATEN, SHORTEST, "\n"], Err(NotJson(3))),
    (&[SHORTEST, AT_41, AT_42, "\n"], Ok(Claim(40))),
    (&[AT_40, AT_41, OF_LEAST_1], Ok(Claim(42))),
    (&[AT_40, SHORTEST, UNSPENT], Ok(Claim(41))),
    (&[BEATEN, SHORTEST, UNSPENT], Ok(Broken(Rule::Sum, 40, 0))),
    (&[AT_40, TOO_MANY, UNSPENT], Ok(Broken(Rule::Tree, 41, 1))),
    (&[AT_40, AT_41, UNSPENT], Ok(Broken(Rule::Budget, 42, 0))),
    (
        &[AT_40, AT_40, AT_42, "\n"],
        Ok(Broken(ANOTHER_CYCLE, 41, 0)),
    ),
    (
        &[AT_41, AT_41, AT_42, "\n"],
        Ok(Broken(ANOTHER_CYCLE, 40, 0)),
    ),
    (&[AT_23, AT_41, AT_42, "\n"], Ok(Broken(Rule::Sum, 40, 0))),
    (&[AT_40, AT_41, AT_24], Ok(Broken(ANOTHER_CYCLE, 42, 0))),
];

#[test]
fn texts(rt: HostRuntime) -> Result<(), Fail> {
    let alloc = rt.alloc();
    let file = with_cycles(alloc, PAIR, 40, 42)?;
    let junction = read(alloc, file.as_bytes())?;
    for (parts, want) in TEXTS {
        let text = joined(alloc, parts)?;
        let found = check_curve(alloc, &junction, text.as_bytes());
        assert_eq!(rt; found, want, "{text}");
    }
    Ok(())
}

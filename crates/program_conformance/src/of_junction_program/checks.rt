//! What a check says of certificates that others wrote.
use super::certificates::{BEST, CLASHING};
use super::changes::{BOUNDED, Changes, OF_24_TO_60, OF_39_TO_60, UNBOUNDED, with_changes};
use super::{check, check_held, shelf_of};
use junction_program::Status;
use samples::texts::changed;
use samples::{EARLY_START, PAIR, RING};
use sig_base::MemorySink;
use std::alloc::Global;
use std::process::Abort;
use std::test::Fail;

fn check_check(
    rt: &impl Abort,
    alloc: Global,
    junction: &str,
    certificate: &str,
    want: (Status, &str),
) -> Result<(), Fail> {
    let mut shelf = shelf_of(alloc, junction, certificate)?;
    let sink = MemorySink::new(alloc);
    check(rt, alloc, "check|J|C", &mut shelf, sink, want)?;
    check_held(rt, &shelf, "C", certificate)
}

/// The plan's start of C is a second late.
const LATE: &str =
    "{\"branches\":[],\"budget\":1,\"claim\":\"cycle\",\"least\":[1,1],\"plan\":{\"cycle\":40,\"greens\":[7,7,7],\"starts\":[0,23,11]},\"version\":1}";

/// A file and its changes, a certificate, the status and the line.
type Row<'a> = (&'a str, Changes<'a>, &'a str, Status, &'a str);

const PLANS: [Row<'static>; 4] = [
    (PAIR, &[], BEST, Status::Done, "proved capacity\n"),
    (
        PAIR,
        &[],
        CLASHING,
        Status::Refuted,
        "refuted 2 fit clash A B second 1\n",
    ),
    (
        PAIR,
        BOUNDED,
        BEST,
        Status::Refuted,
        "refuted 2 fit max_green A\n",
    ),
    (
        EARLY_START,
        &[UNBOUNDED],
        LATE,
        Status::Refuted,
        "refuted 2 fit link A C\n",
    ),
];

#[test]
fn plans_of_others(rt: HostRuntime) -> Result<(), Fail> {
    let alloc = rt.alloc();
    for (file, changes, certificate, status, line) in &PLANS {
        let junction = with_changes(alloc, file, changes)?;
        check_check(&rt, alloc, junction.as_str(), certificate, (*status, line))?;
    }
    Ok(())
}

const AT_38: Changes<'static> = &[(OF_39_TO_60, "least_cycle = 38\ngreatest_cycle = 38")];

const AT_39: Changes<'static> = &[(OF_39_TO_60, "least_cycle = 39\ngreatest_cycle = 39")];

/// The early start at one cycle: item 1 is the pair of B and C, item 2 the link from A to C.
const AT_33: Changes<'static> = &[
    UNBOUNDED,
    (OF_24_TO_60, "least_cycle = 33\ngreatest_cycle = 33"),
];

const AT_34: Changes<'static> = &[
    UNBOUNDED,
    (OF_24_TO_60, "least_cycle = 34\ngreatest_cycle = 34"),
];

const OF_LINK: &str = "[[2,1,[0,1,2],[0,2,1],[0,2]]]";

/// A file and its changes, the trees of a certificate that no plan carries the flows, the status and the line. The sums
/// of the early start are 14, 1 and 23 at 33 seconds; at 34 the second one is 0.
const TREES: [Row<'static>; 9] = [
    (
        RING,
        AT_39,
        "[[2,[0,1,2],[0,2,1]]]",
        Status::Refuted,
        "refuted 9 sum cycle 39 node 1\n",
    ),
    (
        RING,
        AT_38,
        "[[2,[0,1,2],[0,2,1]]]",
        Status::Done,
        "proved infeasible\n",
    ),
    (
        RING,
        AT_38,
        "[[2,[0,1,2]]]",
        Status::Refuted,
        "refuted 5 tree cycle 38 node 2\n",
    ),
    (
        RING,
        AT_38,
        "[[[1,2]]]",
        Status::Refuted,
        "refuted 8 edge cycle 38 node 0\n",
    ),
    (
        RING,
        AT_38,
        "[[0,[0,1],[0,1]]]",
        Status::Refuted,
        "refuted 6 pair cycle 38 node 0\n",
    ),
    (
        RING,
        AT_38,
        "[[2,[0,1,2],[0,2,1],null]]",
        Status::Refuted,
        "refuted 5 tree cycle 38 node 3\n",
    ),
    (RING, AT_38, "[]", Status::Refuted, "refuted 4 cycles\n"),
    (
        EARLY_START,
        AT_33,
        OF_LINK,
        Status::Done,
        "proved infeasible\n",
    ),
    (
        EARLY_START,
        AT_34,
        OF_LINK,
        Status::Refuted,
        "refuted 9 sum cycle 34 node 3\n",
    ),
];

#[test]
fn trees_of_others(rt: HostRuntime) -> Result<(), Fail> {
    let alloc = rt.alloc();
    for (file, changes, trees, status, line) in &TREES {
        let junction = with_changes(alloc, file, changes)?;
        let certificate = format!(in alloc;
            "{{\"branches\":{trees},\"budget\":9,\"claim\":\"infeasible\",\"least\":[1,1],\"plan\":null,\"version\":2}}"
        )?;
        let want = (*status, *line);
        check_check(&rt, alloc, junction.as_str(), certificate.as_str(), want)?;
    }
    Ok(())
}

const SHAPE: (Status, &str) = (Status::BadCertificate, "bad certificate 2 shape\n");

const RANGE: (Status, &str) = (Status::BadCertificate, "bad certificate 3 range\n");

/// What is changed in the certificate of the best plan, and into what; the status and the line. A plan whose greens
/// differ by two seconds has a multiplier of 36/25: to beat it takes 25 and 25 seconds, and 25 + 5 + 25 + 5 - 60 is 0.
const CHANGES: [(&str, &str, (Status, &str)); 9] = [
    ("\"budget\":200000", "\"budget\":-1", SHAPE),
    ("\"version\"", "\"speed\":1,\"version\"", SHAPE),
    ("\"budget\":200000", "\"budget\":0", RANGE),
    ("\"claim\":\"capacity\"", "\"claim\":\"best\"", RANGE),
    ("\"least\":[1,1]", "\"least\":[2,4]", RANGE),
    ("[0,30]", "[0,30,40]", RANGE),
    ("[[[0,1]]]", "[[[0,2]]]", RANGE),
    (
        "[[[0,1]]]",
        "[[5]]",
        (Status::Refuted, "refuted 6 pair cycle 60 node 0\n"),
    ),
    (
        "\"greens\":[25,25],\"starts\":[0,30]",
        "\"greens\":[26,24],\"starts\":[0,31]",
        (Status::Refuted, "refuted 9 sum cycle 60 node 0\n"),
    ),
];

#[test]
fn certificates_that_are_changed(rt: HostRuntime) -> Result<(), Fail> {
    let alloc = rt.alloc();
    for (old, new, want) in CHANGES {
        let certificate = changed(alloc, BEST, old, new)?;
        check_check(&rt, alloc, PAIR, certificate.as_str(), want)?;
    }
    Ok(())
}

const NOT_JSON: (Status, &str) = (Status::BadCertificate, "bad certificate 1 not_json\n");

/// How many lists stand in one another, and the line. A text is read up to 127 levels.
const LISTS: [(usize, (Status, &str)); 2] = [(100, SHAPE), (200, NOT_JSON)];

#[test]
fn lists_in_place_of_a_certificate(rt: HostRuntime) -> Result<(), Fail> {
    let alloc = rt.alloc();
    for (depth, want) in LISTS {
        let mut lists = "[".repeat(alloc, depth)?;
        lists.push_str("]".repeat(alloc, depth)?.as_str())?;
        check_check(&rt, alloc, PAIR, lists.as_str(), want)?;
    }
    Ok(())
}

/// No proper prefix of a certificate is JSON.
#[test]
fn certificates_cut_short(rt: HostRuntime) -> Result<(), Fail> {
    let alloc = rt.alloc();
    for length in 0..BEST.len() {
        let mut shelf = shelf_of(alloc, PAIR, "")?;
        let part = BEST.as_bytes().get(..length).ok_or("too short")?;
        shelf.set("C", part)?;
        let sink = MemorySink::new(alloc);
        check(&rt, alloc, "check|J|C", &mut shelf, sink, NOT_JSON)?;
    }
    Ok(())
}

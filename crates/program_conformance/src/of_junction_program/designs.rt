//! What a design prints and puts, whole. The plans were found by hand.
use super::certificates::{BEST, NO_PLAN, SHORTEST};
use super::changes::{CLOSE, Changes, OF_60, QUICK, SATURATED, with_changes};
use super::reports::{OF_BEST, OF_NO_PLAN, OF_SHORTEST};
use super::{check, check_held, check_verdict, shelf_of};
use junction_program::Status;
use samples::{PAIR, RING};
use sig_base::MemorySink;
use std::alloc::Global;
use std::process::Abort;
use std::test::Fail;

/// The words of a design, the file and its changes; the status, the report, the certificate, and the line of its check.
#[derive(Clone, Copy)]
struct Design<'a> {
    words: &'a str,
    file: &'a str,
    changes: Changes<'a>,
    status: Status,
    report: &'a str,
    certificate: &'a str,
    verdict: &'a str,
}

/// A cycle of 21 is too short for two greens of 9; of the cycles from 40 to 42 the last one is the best.
const DESIGNS: [Design<'static>; 6] = [
    Design {
        words: "capacity|J|C",
        file: PAIR,
        changes: &[],
        status: Status::Done,
        report: OF_BEST,
        certificate: BEST,
        verdict: "proved capacity\n",
    },
    Design {
        words: "capacity|J|C|--least|2/1",
        file: PAIR,
        changes: &[],
        status: Status::Infeasible,
        report: OF_NO_PLAN,
        certificate: NO_PLAN,
        verdict: "proved infeasible\n",
    },
    Design {
        words: "cycle|J|C|--budget|2",
        file: RING,
        changes: &[],
        status: Status::Done,
        report: OF_SHORTEST,
        certificate: SHORTEST,
        verdict: "proved cycle\n",
    },
    Design {
        words: "cycle|J|C|--budget|1",
        file: RING,
        changes: &[],
        status: Status::Stopped,
        report: "junction ring\nclaim stopped\nleast 1/1\nnodes 1\n",
        certificate: "{\"branches\":[[2,null,null]],\"budget\":1,\"claim\":\"stopped\",\"least\":[1,1],\"plan\":null,\"version\":1}",
        verdict: "partial stopped\n",
    },
    Design {
        words: "cycle|J|C",
        file: PAIR,
        changes: &[
            (OF_60, "least_cycle = 21\ngreatest_cycle = 60"),
            QUICK,
            QUICK,
            SATURATED,
            SATURATED,
            CLOSE,
        ],
        status: Status::Done,
        report: "junction pair\nclaim cycle\nleast 1/1\nnodes 1\ncycle 22\nmultiplier 45/44\nreserve 25/11 per cent\ngroup A start 0 green 9\ngroup B start 11 green 9\nlane A1 saturation 44/45 delay 45127/440\nlane B1 saturation 44/45 delay 45127/440\nstage 1 first 0 seconds 9 groups A\nstage 2 first 11 seconds 9 groups B\n",
        certificate: "{\"branches\":[[[0,1]]],\"budget\":200000,\"claim\":\"cycle\",\"least\":[1,1],\"plan\":{\"cycle\":22,\"greens\":[9,9],\"starts\":[0,11]},\"version\":1}",
        verdict: "proved cycle\n",
    },
    Design {
        words: "capacity|J|C",
        file: PAIR,
        changes: &[(OF_60, "least_cycle = 40\ngreatest_cycle = 42")],
        status: Status::Done,
        report: "junction pair\nclaim capacity\nleast 1/1\nnodes 3\ncycle 42\nmultiplier 48/35\nreserve 260/7 per cent\ngroup A start 0 green 16\ngroup B start 21 green 16\nlane A1 saturation 21/32 delay 87271/6160\nlane B1 saturation 21/32 delay 87271/6160\nstage 1 first 0 seconds 16 groups A\nstage 2 first 21 seconds 16 groups B\n",
        certificate: "{\"branches\":[[[0,1]],[[0,1]],[[0,1]]],\"budget\":200000,\"claim\":\"capacity\",\"least\":[1,1],\"plan\":{\"cycle\":42,\"greens\":[16,16],\"starts\":[0,21]},\"version\":1}",
        verdict: "proved capacity\n",
    },
];

fn check_design(rt: &impl Abort, alloc: Global, design: &Design) -> Result<(), Fail> {
    let file = with_changes(alloc, design.file, design.changes)?;
    let mut shelf = shelf_of(alloc, file.as_str(), "")?;
    let sink = MemorySink::new(alloc);
    let want = (design.status, design.report);
    check(rt, alloc, design.words, &mut shelf, sink, want)?;
    check_held(rt, &shelf, "C", design.certificate)?;
    check_verdict(rt, alloc, &mut shelf, design.verdict)?;
    check_held(rt, &shelf, "C", design.certificate)
}

#[test]
fn designs_whole(rt: HostRuntime) -> Result<(), Fail> {
    for design in &DESIGNS {
        check_design(&rt, rt.alloc(), design)?;
    }
    Ok(())
}

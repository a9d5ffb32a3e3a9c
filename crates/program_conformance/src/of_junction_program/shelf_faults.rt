//! A shelf that fails at each call. What it holds stays, and it isn't called again.
use super::certificates::SHORTEST;
use super::{check, check_held, check_next_call, first_part, shelf_of};
use junction_program::Status;
use samples::{PAIR, RING};
use sig_base::MemorySink;
use std::alloc::Global;
use std::process::Abort;
use std::test::Fail;

/// The words, and the call that fails: a fetch of the junction, then a put or a fetch of the certificate, or a put of a
/// sample's junction.
const CALLS: [(&str, u64); 9] = [
    ("capacity|J|C", 1),
    ("capacity|J|C", 2),
    ("cycle|J|C", 1),
    ("cycle|J|C", 2),
    ("check|J|C", 1),
    ("check|J|C", 2),
    ("play|J|C|3", 1),
    ("play|J|C|3", 2),
    ("sample|0|J|C", 1),
];

const LINE: &str = "shelf failed\n";

fn check_call(
    rt: &impl Abort,
    alloc: Global,
    words: &str,
    call: u64,
    sink: MemorySink,
    want: (Status, &str),
) -> Result<(), Fail> {
    let mut shelf = shelf_of(alloc, RING, SHORTEST)?;
    shelf.fail_at(call)?;
    shelf.fail_at(call.saturating_add(1))?;
    check(rt, alloc, words, &mut shelf, sink, want)?;
    check_next_call(rt, alloc, &mut shelf)?;
    check_held(rt, &shelf, "J", RING)?;
    check_held(rt, &shelf, "C", SHORTEST)
}

#[test]
fn each_call_that_fails(rt: HostRuntime) -> Result<(), Fail> {
    let alloc = rt.alloc();
    for (words, call) in CALLS {
        let want = (Status::ShelfFailed, LINE);
        check_call(&rt, alloc, words, call, MemorySink::new(alloc), want)?;
    }
    Ok(())
}

/// The sink keeps none, some or all of the line.
#[test]
fn each_call_that_fails_before_a_push_that_fails(rt: HostRuntime) -> Result<(), Fail> {
    let alloc = rt.alloc();
    for (words, call) in CALLS {
        for kept in [0, 5, 100] {
            let mut sink = MemorySink::new(alloc);
            sink.fail_at(1, kept)?;
            let want = (Status::SinkFailed, first_part(LINE, kept)?);
            check_call(&rt, alloc, words, call, sink, want)?;
        }
    }
    Ok(())
}

/// The words, and what is fetched first that the shelf doesn't hold.
const MISSING: [(&str, u64); 6] = [
    ("capacity|K|C", 1),
    ("cycle|K|C", 1),
    ("check|K|J", 1),
    ("check|J|C", 2),
    ("play|K|J|3", 1),
    ("play|J|C|3", 2),
];

#[test]
fn names_that_are_not_held(rt: HostRuntime) -> Result<(), Fail> {
    let alloc = rt.alloc();
    for (words, call) in MISSING {
        let mut shelf = shelf_of(alloc, PAIR, "")?;
        shelf.fail_at(call.saturating_add(1))?;
        let want = (Status::ShelfFailed, LINE);
        let sink = MemorySink::new(alloc);
        check(&rt, alloc, words, &mut shelf, sink, want)?;
        check_next_call(&rt, alloc, &mut shelf)?;
        check_held(&rt, &shelf, "J", PAIR)?;
        check_held(&rt, &shelf, "C", "")?;
    }
    Ok(())
}

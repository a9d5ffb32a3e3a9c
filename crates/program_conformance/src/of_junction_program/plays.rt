//! What a play prints: a row of each second. The rows were found by hand.
use super::certificates::{CLASHING, NO_PLAN, SHORTEST};
use super::{check, check_held, run_words, shelf_of};
use junction_program::Status;
use samples::{PAIR, RING};
use sig_base::MemorySink;
use std::test::Fail;

/// Lines of 40 seconds by their number, from 0 on. Ambers and red-ambers take 2 seconds.
const RING_LINES: [(usize, Option<&str>); 7] = [
    (0, Some("second,A,B,C")),
    (1, Some("0,green,red,red")),
    (12, Some("11,amber,red_amber,red")),
    (39, Some("38,red_amber,red,red")),
    (40, Some("39,green,red,red")),
    (41, Some("")),
    (42, None),
];

#[test]
fn forty_seconds_of_a_ring(rt: HostRuntime) -> Result<(), Fail> {
    let alloc = rt.alloc();
    let mut shelf = shelf_of(alloc, RING, SHORTEST)?;
    let mut sink = MemorySink::new(alloc);
    let status = run_words(alloc, "play|J|C|40", &mut shelf, &mut sink)?;
    assert_eq!(rt; status, Status::Done);
    let text = str::from_utf8(sink.bytes())?;
    for (number, want) in RING_LINES {
        assert_eq!(rt; text.split('\n').nth(number), want, "line {number}");
    }
    check_held(&rt, &shelf, "C", SHORTEST)
}

/// The words, the junction, the certificate, the status and what is printed.
const PLAYS: [(&str, &str, &str, Status, &str); 6] = [
    ("play|J|C|0", RING, SHORTEST, Status::Done, "second,A,B,C\n"),
    (
        "play|J|C|40",
        PAIR,
        CLASHING,
        Status::Refuted,
        "refuted 2 fit clash A B second 1\n",
    ),
    (
        "play|J|C|40",
        PAIR,
        NO_PLAN,
        Status::Refuted,
        "refuted 1 plan\n",
    ),
    ("play|J|C", RING, SHORTEST, Status::BadWords, "bad words\n"),
    (
        "play|J|C|604801",
        RING,
        SHORTEST,
        Status::BadWords,
        "bad words\n",
    ),
    (
        "play|J|C|01",
        RING,
        SHORTEST,
        Status::BadWords,
        "bad words\n",
    ),
];

#[test]
fn plays_of_no_row(rt: HostRuntime) -> Result<(), Fail> {
    let alloc = rt.alloc();
    for (words, junction, certificate, status, text) in PLAYS {
        let mut shelf = shelf_of(alloc, junction, certificate)?;
        let sink = MemorySink::new(alloc);
        check(&rt, alloc, words, &mut shelf, sink, (status, text))?;
        check_held(&rt, &shelf, "C", certificate)?;
    }
    Ok(())
}

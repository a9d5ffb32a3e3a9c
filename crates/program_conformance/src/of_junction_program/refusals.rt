//! Words and files that are refused.
use super::changes::{Changes, SECOND_VERSION, with_changes};
use super::{check, check_held, check_next_call, shelf_of};
use crate::words::words_of;
use junction_program::{Status, run};
use samples::{EARLY_START, PAIR};
use sig_base::{MemoryShelf, MemorySink};
use std::alloc::Global;
use std::process::Abort;
use std::test::Fail;

const LANES: Changes<'static> = &[
    (
        "[[lane]]\nname = \"A1\"\ngroup = \"A\"\narrival = 450\nsaturation = 1800\n",
        "",
    ),
    (
        "[[lane]]\nname = \"B1\"\ngroup = \"B\"\narrival = 450\nsaturation = 1800\n",
        "",
    ),
];

/// Changes of the file of a pair, and the line.
const CHANGES: [(Changes<'static>, &str); 17] = [
    (
        &[("a_to_b = 5", "a_to_b = 2")],
        "bad junction 11 short_intergreen conflict 1 a_to_b\n",
    ),
    (
        &[(
            "\n[[conflict]]",
            "\n[[group]]\nname = \"C\"\nmin_green = 7\namber = 3\nred_amber = 2\nstart_lost = 0\nend_gain = 0\n\n[[conflict]]",
        )],
        "bad junction 10 lonely group 3 whole\n",
    ),
    (
        &[("= 450", "= 0"), ("= 450", "= 0")],
        "bad junction 14 no_flow top 0 lane\n",
    ),
    (
        &[("version = 1", "version = 3")],
        "bad junction 2 version top 0 version\n",
    ),
    (
        &[("version = 1", "version = 1\nspeed = 1")],
        "bad junction 3 shape top 0 other\n",
    ),
    (LANES, "bad junction 3 shape top 0 lane\n"),
    (
        &[("arrival = 450", "arrival = 4.5")],
        "bad junction 3 shape lane 1 arrival\n",
    ),
    (
        &[("least_cycle = 60", "least_cycle = 1_000")],
        "bad junction 5 range top 0 least_cycle\n",
    ),
    (
        &[("amber = 3", "amber = 4294967299")],
        "bad junction 5 range group 1 amber\n",
    ),
    (
        &[("name = \"B\"", "name = \"A\"")],
        "bad junction 6 name group 2 name\n",
    ),
    (
        &[("group = \"B\"", "group = \"X\"")],
        "bad junction 7 unknown lane 2 group\n",
    ),
    (
        &[("b = \"B\"", "b = \"A\"")],
        "bad junction 8 self_conflict conflict 1 whole\n",
    ),
    (
        &[(
            "b_to_a = 5\n",
            "b_to_a = 5\n\n[[conflict]]\na = \"B\"\nb = \"A\"\na_to_b = 5\nb_to_a = 5\n",
        )],
        "bad junction 9 twice conflict 2 whole\n",
    ),
    (
        &[
            ("end_gain = 0", "end_gain = 4"),
            ("end_gain = 0", "end_gain = 4"),
        ],
        "bad junction 12 end_gain group 1 end_gain\n",
    ),
    (
        &[
            ("start_lost = 0", "start_lost = 7"),
            ("start_lost = 0", "start_lost = 7"),
        ],
        "bad junction 13 no_effective group 1 start_lost\n",
    ),
    (
        &[
            SECOND_VERSION,
            ("end_gain = 0", "end_gain = 0\nmax_green = 6"),
        ],
        "bad junction 15 max_green group 1 max_green\n",
    ),
    (
        &[("end_gain = 0", "end_gain = 0\nmax_green = 20")],
        "bad junction 3 shape group 1 other\n",
    ),
];

/// Changes of the file of an early start, and the line.
const LINK_CHANGES: [(Changes<'static>, &str); 2] = [
    (
        &[("follower = \"C\"", "follower = \"A\"")],
        "bad junction 16 self_link link 1 whole\n",
    ),
    (
        &[(
            "after = 10\n",
            "after = 10\n[[link]]\nleader = \"C\"\nfollower = \"A\"\nafter = 10\n",
        )],
        "bad junction 17 link_twice link 2 whole\n",
    ),
];

/// The forms that fetch a junction.
const FORMS: [&str; 4] = ["capacity|J|C", "cycle|J|C", "check|J|C", "play|J|C|3"];

/// Runs each command on the junction of these bytes, which are refused; nothing is fetched after them.
fn check_refused(rt: &impl Abort, alloc: Global, junction: &[u8], line: &str) -> Result<(), Fail> {
    for words in FORMS {
        let mut shelf = MemoryShelf::new(alloc);
        shelf.set("J", junction)?;
        shelf.fail_at(2)?;
        let want = (Status::BadJunction, line);
        let sink = MemorySink::new(alloc);
        check(rt, alloc, words, &mut shelf, sink, want)?;
        check_next_call(rt, alloc, &mut shelf)?;
        check_held(rt, &shelf, "C", "")?;
    }
    Ok(())
}

fn check_changes(
    rt: &impl Abort,
    alloc: Global,
    file: &str,
    rows: &[(Changes, &str)],
) -> Result<(), Fail> {
    for (changes, line) in rows {
        let junction = with_changes(alloc, file, changes)?;
        check_refused(rt, alloc, junction.as_bytes(), line)?;
    }
    Ok(())
}

#[test]
fn junctions_that_are_changed(rt: HostRuntime) -> Result<(), Fail> {
    check_changes(&rt, rt.alloc(), PAIR, &CHANGES)
}

#[test]
fn links_that_are_changed(rt: HostRuntime) -> Result<(), Fail> {
    check_changes(&rt, rt.alloc(), EARLY_START, &LINK_CHANGES)
}

/// No text, a text that is cut, and an empty one.
#[test]
fn bytes_of_no_junction(rt: HostRuntime) -> Result<(), Fail> {
    let alloc = rt.alloc();
    let mut bytes = PAIR.as_bytes().to_vec(alloc)?;
    bytes.push(255)?;
    let line = "bad junction 1 not_toml top 0 whole\n";
    check_refused(&rt, alloc, &bytes, line)?;
    check_refused(&rt, alloc, b"version = ", line)?;
    let line = "bad junction 2 version top 0 version\n";
    check_refused(&rt, alloc, b"", line)
}

/// Every proper prefix of the file is refused, but for the one that lacks the last line feed alone.
#[test]
fn junctions_cut_short(rt: HostRuntime) -> Result<(), Fail> {
    let alloc = rt.alloc();
    let words = words_of(alloc, "cycle|J|C")?;
    for length in 0..PAIR.len() {
        let mut shelf = MemoryShelf::new(alloc);
        shelf.set("J", PAIR.as_bytes().get(..length).ok_or("too short")?)?;
        let mut out = MemorySink::new(alloc);
        let status = run(alloc, &words, &mut shelf, &mut out);
        let want = if length + 1 < PAIR.len() {
            Status::BadJunction
        } else {
            Status::Done
        };
        assert_eq!(rt; status, want, "{length}");
    }
    Ok(())
}

/// A file of one comment of so many bytes.
fn comment(alloc: Global, length: u32) -> Result<MemoryShelf, Fail> {
    let mut text = Vec::new(alloc);
    for _ in 0..length {
        text.push(b'#')?;
    }
    let mut shelf = MemoryShelf::new(alloc);
    shelf.set("J", &text)?;
    Ok(shelf)
}

/// The words, the length of a file, the number of the push that fails after two bytes, the status and what is written.
const LENGTHS: [(&str, u32, u64, Status, &str); 5] = [
    (
        "capacity|J|C",
        1_048_576,
        2,
        Status::BadJunction,
        "bad junction 2 version top 0 version\n",
    ),
    ("capacity|J|C", 1_048_577, 2, Status::TooLong, "too long\n"),
    ("check|J|C", 1_048_577, 2, Status::TooLong, "too long\n"),
    ("play|J|C|3", 1_048_577, 2, Status::TooLong, "too long\n"),
    ("cycle|J|C", 1_048_577, 1, Status::SinkFailed, "to"),
];

/// Nothing is fetched after the junction, and no second push comes.
#[test]
fn a_file_one_byte_above_the_limit(rt: HostRuntime) -> Result<(), Fail> {
    let alloc = rt.alloc();
    for (words, length, push, status, text) in LENGTHS {
        let mut shelf = comment(alloc, length)?;
        shelf.fail_at(2)?;
        let mut sink = MemorySink::new(alloc);
        sink.fail_at(push, 2)?;
        check(&rt, alloc, words, &mut shelf, sink, (status, text))?;
        check_next_call(&rt, alloc, &mut shelf)?;
        check_held(&rt, &shelf, "C", "")?;
    }
    Ok(())
}

const WORDS: [&str; 8] = [
    "",
    "cycle|J",
    "capacity|J|J",
    "Cycle|J|C",
    "capacity|J|C|--budget|0",
    "capacity|J|C|--budget=5",
    "capacity|J|C|--least|1/1|--least|1/1",
    "capacity|J|C|--least|01/1",
];

/// Nothing is fetched, so the first call, which is to fail, comes later.
#[test]
fn words_of_no_form(rt: HostRuntime) -> Result<(), Fail> {
    let alloc = rt.alloc();
    for words in WORDS {
        let mut shelf = shelf_of(alloc, PAIR, "")?;
        shelf.fail_at(1)?;
        let want = (Status::BadWords, "bad words\n");
        check(&rt, alloc, words, &mut shelf, MemorySink::new(alloc), want)?;
        check_next_call(&rt, alloc, &mut shelf)?;
        check_held(&rt, &shelf, "J", PAIR)?;
    }
    Ok(())
}

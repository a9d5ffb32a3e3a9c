use aspect_player::{Aspect, Player, write_rows};
use junction_files::read;
use junction_model::Junction;
use log_monitor::{
    LogFault, LogVerdict, Monitor, Violation, judge, log_fault_text, log_laws, log_verdict_text,
    monitor_laws,
};
use samples::plans::fitted;
use samples::{EARLY_START, RING};
use sig_base::MemorySink;
use std::alloc::Global;
use std::test::Fail;

const R: Aspect = Aspect::Red;

const G: Aspect = Aspect::Green;

const A: Aspect = Aspect::Amber;

/// Logs of the ring of three groups A, B and C, with minimum greens of 10 seconds and ambers of 2,
/// and the line of each; from A to B 3 seconds have to lie, from B to A 8.
const RING_LOGS: [(&str, &str); 14] = [
    ("second,A,B,C\n", "safe 0\n"),
    // B is green 2 seconds after A, with an intergreen of 3.
    (
        "second,A,B,C\n0,green,red,red\n1,amber,red,red\n2,amber,green,red\n",
        "violation clearance A B seconds 0 2\n",
    ),
    // And 3 seconds after it; a fourth second is enough.
    (
        "second,A,B,C\n7,green,red,red\n8,amber,red,red\n9,amber,red,red\n10,red,green,red\n",
        "violation clearance A B seconds 7 10\n",
    ),
    (
        "second,A,B,C
7,green,red,red
8,amber,red,red
9,amber,red,red
10,red,red,red
11,red,green,red
",
        "safe 5\n",
    ),
    (
        "second,A,B,C\n0,green,red,red\n1,red,red,red\n",
        "violation amber A second 1\n",
    ),
    // Green again inside its own amber.
    (
        "second,A,B,C\n0,green,red,red\n1,amber,red,red\n2,green,red,red\n",
        "violation amber A second 2\n",
    ),
    (
        "second,A,B,C\n5,red,red,red\n6,green,red,red\n7,amber,red,red\n",
        "violation minimum A second 7\n",
    ),
    // A green that the log begins with, or ends with, may be cut.
    (
        "second,A,B,C\n7,green,red,red\n8,amber,red,red\n9,amber,red,red\n10,green,red,red\n",
        "safe 4\n",
    ),
    // Two greens at once: the pair of the lower first group comes first.
    (
        "second,A,B,C\n4294967295,green,green,red\n",
        "violation clearance A B seconds 4294967295 4294967295\n",
    ),
    // A clearance comes before an amber of the same second, and an amber before a minimum green.
    (
        "second,A,B,C\n0,green,red,red\n1,red,green,red\n",
        "violation clearance A B seconds 0 1\n",
    ),
    (
        "second,A,B,C\n0,red,red,red\n1,green,red,red\n2,red,red,red\n",
        "violation amber A second 2\n",
    ),
    // A later violation isn't told.
    (
        "second,A,B,C\n0,green,red,red\n1,red,red,red\n2,green,green,green\n",
        "violation amber A second 1\n",
    ),
    // A byte order mark, quotes, lines that end with CR LF, and a blank line.
    (
        "\u{feff}second,\"A\",B,C\r\n\r\n4294967295,red,red,red\r\n4294967296,red,\"red\",red",
        "safe 2\n",
    ),
    // CR alone ends a line too.
    ("second,A,B,C\r0,red,red,red\r", "safe 1\n"),
];

/// Bytes that are no log of the ring.
const NO_LOGS: [(&str, &str); 26] = [
    ("", "bad log 1 header\n"),
    ("\u{feff}", "bad log 1 header\n"),
    ("\r\n\n", "bad log 1 header\n"),
    ("second,A,B\n", "bad log 1 header\n"),
    ("second,A,B,C,\n", "bad log 1 header\n"),
    ("second,A,C,B\n0,red,red,red\n", "bad log 1 header\n"),
    ("Second,A,B,C\n0,red,red,red\n", "bad log 1 header\n"),
    ("0,red,red,red\n", "bad log 1 header\n"),
    // Cut off, at the second record and at the first.
    (
        "second,A,B,C\n0,red,red,red\n1,red,red\n",
        "bad log 2 record record 2\n",
    ),
    ("second,A,B,C\n0,red,re", "bad log 2 record record 1\n"),
    (
        "second,A,B,C\n0,red,red,red,red\n",
        "bad log 2 record record 1\n",
    ),
    // The number of fields comes before the second.
    ("second,A,B,C\n00,blue\n", "bad log 2 record record 1\n"),
    (
        "second,A,B,C\n00,red,red,red\n",
        "bad log 3 second record 1\n",
    ),
    (
        "second,A,B,C\n+1,red,red,red\n",
        "bad log 3 second record 1\n",
    ),
    (
        "second,A,B,C\n 1,red,red,red\n",
        "bad log 3 second record 1\n",
    ),
    (
        "second,A,B,C\n4294967296,red,red,red\n",
        "bad log 3 second record 1\n",
    ),
    // A second left out, one that stands still, and one that falls.
    (
        "second,A,B,C\n3,red,red,red\n5,red,red,red\n",
        "bad log 3 second record 2\n",
    ),
    (
        "second,A,B,C\n3,red,red,red\n3,red,red,red\n",
        "bad log 3 second record 2\n",
    ),
    (
        "second,A,B,C\n3,red,red,red\n4,red,red,red\n3,red,red,red\n",
        "bad log 3 second record 3\n",
    ),
    // The second comes before the aspects, and the first record that is none before all later ones.
    (
        "second,A,B,C\n,blue,red,red\n1,red\n",
        "bad log 3 second record 1\n",
    ),
    (
        "second,A,B,C\n0,blue,red,red\n",
        "bad log 4 aspect record 1\n",
    ),
    (
        "second,A,B,C\n0,red,red,RED\n",
        "bad log 4 aspect record 1\n",
    ),
    ("second,A,B,C\n0,red,red,r", "bad log 4 aspect record 1\n"),
    (
        "second,A,B,C\n0,red, red,red\n",
        "bad log 4 aspect record 1\n",
    ),
    // A quoted field may have a line feed, and is no word with it.
    (
        "second,A,B,C\n0,\"red\n\",red,red\n",
        "bad log 4 aspect record 1\n",
    ),
    // A fault comes before a violation.
    (
        "second,A,B,C\n0,green,green,red\n1,,,\n",
        "bad log 4 aspect record 2\n",
    ),
];

/// Logs of a junction with a link: C starts 10 seconds after A, and A is green for at most 20
/// seconds. A log is judged by clearance, amber and minimum green alone. B and C conflict, at 5
/// seconds.
const LINKED_LOGS: [(&str, &str); 4] = [
    // C starts before A, and they may be green together.
    (
        "second,A,B,C\n0,red,red,green\n1,green,red,green\n",
        "safe 2\n",
    ),
    (
        "second,A,B,C
0,red,green,red
1,red,amber,red
2,red,amber,red
3,red,amber,red
4,red,red,red
5,red,red,green
",
        "violation clearance B C seconds 0 5\n",
    ),
    (
        "second,A,B,C
0,red,green,red
1,red,amber,red
2,red,amber,red
3,red,amber,red
4,red,red,red
5,red,red,red
6,red,red,green
",
        "safe 7\n",
    ),
    // A green of 21 seconds, with a row before it and after it.
    (
        "second,A,B,C
0,red,red,red
1,green,red,red
2,green,red,red
3,green,red,red
4,green,red,red
5,green,red,red
6,green,red,red
7,green,red,red
8,green,red,red
9,green,red,red
10,green,red,red
11,green,red,red
12,green,red,red
13,green,red,red
14,green,red,red
15,green,red,red
16,green,red,red
17,green,red,red
18,green,red,red
19,green,red,red
20,green,red,red
21,green,red,red
22,amber,red,red
",
        "safe 23\n",
    ),
];

/// The line of a log.
fn line_of(alloc: Global, junction: &Junction, log: &[u8]) -> Result<Vec<u8>, Fail> {
    log_laws();
    if log.len() > 67108864 {
        return Err(Fail::new("a log that is too long"));
    }
    match judge(alloc, junction, log) {
        Ok(verdict) => Ok(log_verdict_text(alloc, junction, &verdict)?),
        Err(LogFault::Memory) => Err(Fail::new("no memory")),
        Err(fault) => Ok(log_fault_text(alloc, fault)?),
    }
}

#[test]
fn lines_of_logs(rt: HostRuntime) -> Result<(), Fail> {
    monitor_laws();
    let alloc = rt.alloc();
    let tables: [(&str, &[(&str, &str)]); 3] = [
        (RING, &RING_LOGS),
        (RING, &NO_LOGS),
        (EARLY_START, &LINKED_LOGS),
    ];
    for (file, logs) in tables {
        let junction = read(alloc, file.as_bytes())?;
        for (log, want) in logs {
            let line = line_of(alloc, &junction, log.as_bytes())?;
            assert_eq!(rt; line.as_slice(), want.as_bytes(), "{}", log);
        }
    }
    Ok(())
}

/// Bytes that are no text, in the second and in a word.
#[test]
fn bytes_that_are_no_text(rt: HostRuntime) -> Result<(), Fail> {
    let alloc = rt.alloc();
    let junction = read(alloc, RING.as_bytes())?;
    let second = judge(alloc, &junction, b"second,A,B,C\n\xff,red,red,red\n");
    assert_eq!(rt; second, Err(LogFault::Second(1)));
    let word = judge(alloc, &junction, b"second,A,B,C\n0,red,\xff,red\n");
    assert_eq!(rt; word, Err(LogFault::Aspect(1)));
    Ok(())
}

#[test]
fn fault_words(rt: HostRuntime) {
    let rows: [(LogFault, u32, &str); 5] = [
        (LogFault::Header, 1, "header"),
        (LogFault::Record(7), 2, "record"),
        (LogFault::Second(7), 3, "second"),
        (LogFault::Aspect(7), 4, "aspect"),
        (LogFault::Memory, 0, "memory"),
    ];
    for (fault, number, word) in rows {
        assert_eq!(rt; fault.number(), number);
        assert_eq!(rt; fault.word(), word);
    }
}

/// The text of 40 rows of a plan that fits.
#[test]
fn what_is_played(rt: HostRuntime) -> Result<(), Fail> {
    let alloc = rt.alloc();
    let junction = read(alloc, RING.as_bytes())?;
    let plan = fitted(&junction, 39, &[0, 13, 26], &[10, 10, 10])?;
    let mut sink = MemorySink::new(alloc);
    let mut player = Player::new(&plan);
    assert_eq!(rt; write_rows(alloc, &mut player, 40, &mut sink), Ok(()));
    assert!(rt; sink.bytes().len() <= 10000);
    assert_eq!(rt;
        judge(alloc, &junction, sink.bytes()),
        Ok(LogVerdict::Safe(40))
    );
    Ok(())
}

/// After a violation a monitor is as before.
#[test]
fn rows_seen(rt: HostRuntime) -> Result<(), Fail> {
    let junction = read(rt.alloc(), RING.as_bytes())?;
    junction.rules();
    assert_eq!(rt; junction.groups().len(), 3);
    let mut monitor = Monitor::new(&junction);
    assert_eq!(rt; monitor.see(&[G, R, R]), None);
    assert_eq!(rt; monitor.see(&[R, R, R]), Some(Violation::Amber(0, 1)));
    assert_eq!(rt; monitor.see(&[A, R, R]), None);
    assert_eq!(rt;
        monitor.see(&[A, G, R]),
        Some(Violation::Clearance(0, 1, 0, 2))
    );
    assert_eq!(rt; monitor.see(&[A, R, R]), None);
    Ok(())
}

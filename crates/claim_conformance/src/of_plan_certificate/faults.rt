use super::{CAPACITY, answer};
use plan_certificate::CertificateFault;
use plan_certificate::CertificateFault::{NotJson, Range, Shape};
use samples::texts::changed;
use std::alloc::Global;
use std::process::Abort;
use std::test::Fail;

/// A change of the text, of the first place of an old one to a new one, and the fault.
type Row<'a> = (&'a str, &'a str, Option<CertificateFault>);

fn check(rt: &impl Abort, alloc: Global, base: &str, rows: &[Row]) -> Result<(), Fail> {
    for (old, new, want) in rows {
        let text = changed(alloc, base, old, new)?;
        let found = answer(alloc, text.as_bytes(), 2)?;
        assert_eq!(rt; found.err(), *want, "{old} to {new}");
    }
    Ok(())
}

const BUDGETS: [Row; 13] = [
    ("200000", "1", None),
    ("200000", "0", Some(Range)),
    ("200000", "-1", Some(Shape)),
    ("200000", "-0", Some(Shape)),
    ("200000", "1.0", Some(Shape)),
    ("200000", "1e3", Some(Shape)),
    ("200000", "01", Some(NotJson)),
    ("200000", "1e400", Some(NotJson)),
    ("200000", "18446744073709551615", None),
    ("200000", "18446744073709551616", Some(Shape)),
    ("200000", "null", Some(Shape)),
    ("200000", "\"1\"", Some(Shape)),
    ("200000", "[1]", Some(Shape)),
];

#[test]
fn budgets_of_each_kind(rt: HostRuntime) -> Result<(), Fail> {
    check(&rt, rt.alloc(), CAPACITY, &BUDGETS)
}

/// Of a repeated key the last value stands.
const KEYS: [Row; 14] = [
    (",\"version\":1", "", Some(Shape)),
    ("{\"branches\":[[[0,1]]],", "{", Some(Shape)),
    ("\"version\"", "\"Version\"", Some(Shape)),
    ("\"version\":1", "\"version\":1,\"x\":1", Some(Shape)),
    ("\"version\":1", "\"version\":1,\"version\":1", None),
    ("\"budget\"", "\"budget\":0,\"budget\"", None),
    ("\"version\":1", "\"version\":1,\"budget\":0", Some(Range)),
    (
        "\"version\":1",
        "\"version\":1,\"budget\":null",
        Some(Shape),
    ),
    ("\"version\"", "\"vers\\u0069on\"", None),
    ("{\"b", " {\n\t\"b", None),
    ("1}", "1} ", None),
    ("1}", "1}}", Some(NotJson)),
    ("1}", "1,}", Some(NotJson)),
    ("\"claim\":\"capacity\",", "", Some(Shape)),
];

#[test]
fn missing_further_and_repeated_keys(rt: HostRuntime) -> Result<(), Fail> {
    check(&rt, rt.alloc(), CAPACITY, &KEYS)
}

const CLAIMS: [Row; 18] = [
    ("\"capacity\"", "\"stopped\"", None),
    ("\"capacity\"", "\"best\"", Some(Range)),
    ("\"capacity\"", "\"Capacity\"", Some(Range)),
    ("\"capacity\"", "\"\"", Some(Range)),
    ("\"capacity\"", "1", Some(Shape)),
    ("[1,1]", "[2,4]", Some(Range)),
    ("[1,1]", "[0,1]", None),
    ("[1,1]", "[0,2]", Some(Range)),
    ("[1,1]", "[1,0]", Some(Range)),
    ("[1,1]", "[1000000,1]", None),
    ("[1,1]", "[1000001,1]", Some(Range)),
    ("[1,1]", "[1,1000000]", None),
    ("[1,1]", "[1,1000001]", Some(Range)),
    ("[1,1]", "[1]", Some(Shape)),
    ("[1,1]", "[1,1,1]", Some(Shape)),
    ("[1,1]", "[1,1.5]", Some(Shape)),
    ("[1,1]", "1", Some(Shape)),
    ("[1,1]", "\"1/1\"", Some(Shape)),
];

#[test]
fn claims_and_least_multipliers(rt: HostRuntime) -> Result<(), Fail> {
    check(&rt, rt.alloc(), CAPACITY, &CLAIMS)
}

const PLANS: [Row; 18] = [
    (":60", ":0", Some(Range)),
    (":60", ":1", None),
    (":60", ":300", None),
    (":60", ":301", Some(Range)),
    (":60", ":\"60\"", Some(Shape)),
    ("[0,30]", "[300,0]", None),
    ("[0,30]", "[301,0]", Some(Range)),
    ("[0,30]", "[0,30,0]", Some(Range)),
    ("[0,30]", "[0]", Some(Range)),
    ("[0,30]", "[0,null]", Some(Shape)),
    ("[25,25]", "[25]", Some(Range)),
    ("[25,25]", "[0,300]", None),
    ("[25,25]", "[25,301]", Some(Range)),
    ("[25,25]", "25", Some(Shape)),
    ("\"cycle\":60,", "", Some(Shape)),
    ("\"cycle\":60,", "\"cycle\":60,\"x\":1,", Some(Shape)),
    ("\"plan\":{", "\"plan\":[{", Some(NotJson)),
    (
        "\"plan\":{\"cycle\":60,\"greens\":[25,25],\"starts\":[0,30]}",
        "\"plan\":null",
        None,
    ),
];

#[test]
fn plans_of_each_kind(rt: HostRuntime) -> Result<(), Fail> {
    check(&rt, rt.alloc(), CAPACITY, &PLANS)
}

/// In version 1 a Split names one of 120 pairs, and a walk has two groups or more.
const TREES: [Row; 20] = [
    ("[[[0,1]]]", "[]", None),
    ("[[[0,1]]]", "[[]]", None),
    ("[[[0,1]]]", "[[0,null,null]]", None),
    ("[[[0,1]]]", "[[119,null,null]]", None),
    ("[[[0,1]]]", "[[120,null,null]]", Some(Range)),
    ("[[[0,1]]]", "[[5]]", None),
    ("[[[0,1]]]", "[[-1]]", Some(Shape)),
    ("[[[0,1]]]", "[[true]]", Some(Shape)),
    ("[[[0,1]]]", "[[\"0\"]]", Some(Shape)),
    ("[[[0,1]]]", "[[{}]]", Some(Shape)),
    ("[[[0,1]]]", "[[[null]]]", Some(Shape)),
    ("[[[0,1]]]", "[[[[0]]]]", Some(Shape)),
    ("[[[0,1]]]", "[0]", Some(Shape)),
    ("[[[0,1]]]", "{}", Some(Shape)),
    ("[[[0,1]]]", "[[[0,2]]]", Some(Range)),
    ("[[[0,1]]]", "[[[0]]]", Some(Range)),
    ("[[[0,1]]]", "[[[]]]", Some(Range)),
    ("[[[0,1]]]", "[[[0,1,0,1,0,1,0,1,0,1,0,1,0,1,0,1]]]", None),
    (
        "[[[0,1]]]",
        "[[[0,1,0,1,0,1,0,1,0,1,0,1,0,1,0,1,0]]]",
        Some(Range),
    ),
    ("[[[0,1]]]", "[[[0,256]]]", Some(Range)),
];

#[test]
fn trees_of_the_first_version(rt: HostRuntime) -> Result<(), Fail> {
    check(&rt, rt.alloc(), CAPACITY, &TREES)
}

/// A text of version 2 that has a walk of one group and the Split of the last link.
const SECOND: &str = "{\"branches\":[[131,[0],null]],\"budget\":1,\"claim\":\"stopped\",\
    \"least\":[1,1],\"plan\":null,\"version\":2}";

const VERSIONS: [Row; 13] = [
    ("131", "131", None),
    ("131", "132", Some(Range)),
    ("131", "256", Some(Range)),
    ("131", "120", None),
    ("[0]", "[1]", None),
    ("[0]", "[2]", Some(Range)),
    ("[0]", "[]", Some(Range)),
    ("[0]", "[0,0]", None),
    ("\"version\":2", "\"version\":1", Some(Range)),
    ("\"version\":2", "\"version\":0", Some(Range)),
    ("\"version\":2", "\"version\":3", Some(Range)),
    ("\"version\":2", "\"version\":2.0", Some(Shape)),
    ("\"version\":2", "\"version\":\"2\"", Some(Shape)),
];

#[test]
fn trees_of_the_second_version(rt: HostRuntime) -> Result<(), Fail> {
    check(&rt, rt.alloc(), SECOND, &VERSIONS)
}

/// A fault of the shape comes before one of a range, wherever the two stand.
const TWO_FAULTS: [Row; 3] = [
    ("\"budget\":200000", "\"budget\":0,\"x\":1", Some(Shape)),
    (
        "[[[0,1]]],\"budget\":200000",
        "[[[0,2]]],\"budget\":-1",
        Some(Shape),
    ),
    (
        "\"budget\":200000,\"claim\":\"capacity\"",
        "\"budget\":null,\"claim\":\"best\"",
        Some(Shape),
    ),
];

#[test]
fn two_faults_of_a_text(rt: HostRuntime) -> Result<(), Fail> {
    check(&rt, rt.alloc(), CAPACITY, &TWO_FAULTS)
}

#[test]
fn each_shorter_text(rt: HostRuntime) -> Result<(), Fail> {
    let text = CAPACITY.as_bytes();
    for length in 0..text.len() {
        let found = answer(rt.alloc(), &text[..length], 2)?;
        assert_eq!(rt; found.err(), Some(NotJson), "the first {length} bytes");
    }
    Ok(())
}

#[test]
fn bytes_that_are_no_text(rt: HostRuntime) -> Result<(), Fail> {
    for bytes in [
        b"{\"branches\":".as_slice(),
        b"\xff".as_slice(),
        b"\"\xff\"".as_slice(),
        b"\xef\xbb\xbf[]".as_slice(),
    ] {
        let found = answer(rt.alloc(), bytes, 2)?;
        assert_eq!(rt; found.err(), Some(NotJson), "{bytes:?}");
    }
    Ok(())
}

/// A text is read up to 127 levels.
#[test]
fn lists_in_lists(rt: HostRuntime) -> Result<(), Fail> {
    for (depth, want) in [
        (1, Shape),
        (100, Shape),
        (127, Shape),
        (128, NotJson),
        (200, NotJson),
    ] {
        let mut text = "[".repeat(rt.alloc(), depth)?;
        text.push_str("]".repeat(rt.alloc(), depth)?.as_str())?;
        let found = answer(rt.alloc(), text.as_bytes(), 2)?;
        assert_eq!(rt; found.err(), Some(want), "{depth} levels");
    }
    Ok(())
}

/// A junction has at most 300 cycles, and a certificate one tree for each.
#[test]
fn many_trees(rt: HostRuntime) -> Result<(), Fail> {
    for (more, want) in [(299, None), (300, Some(Range))] {
        let trees = "[],".repeat(rt.alloc(), more)?;
        let branches = format!(in rt.alloc(); "[{trees}[]]")?;
        let text = changed(rt.alloc(), CAPACITY, "[[[0,1]]]", branches.as_str())?;
        let found = answer(rt.alloc(), text.as_bytes(), 2)?;
        assert_eq!(rt; found.err(), want, "{more} trees and one");
    }
    Ok(())
}

#[test]
fn numbers_and_words_of_the_faults(rt: HostRuntime) -> Result<(), Fail> {
    for (fault, number, word) in [
        (NotJson, 1, "not_json"),
        (Shape, 2, "shape"),
        (Range, 3, "range"),
    ] {
        assert_eq!(rt; fault.number(), number);
        assert_eq!(rt; fault.word(), word);
    }
    Ok(())
}

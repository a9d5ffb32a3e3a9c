use super::{Row, check};
use samples::PAIR;
use std::alloc::Global;
use std::process::Abort;
use std::test::Fail;

/// Whole numbers in TOML's ways, other values, and texts that are no values.
const NUMBERS: [(&str, &str); 32] = [
    ("+7", "a junction"),
    ("0x10", "a junction"),
    ("0o7", "a junction"),
    ("0b111", "a junction"),
    ("1_2", "a junction"),
    ("120", "a junction"),
    ("0", "5 range group 1 min_green"),
    ("-0", "5 range group 1 min_green"),
    ("-1", "5 range group 1 min_green"),
    ("121", "5 range group 1 min_green"),
    ("1_000", "5 range group 1 min_green"),
    ("4294967303", "5 range group 1 min_green"),
    ("9223372036854775807", "5 range group 1 min_green"),
    ("-9223372036854775808", "5 range group 1 min_green"),
    ("4.0", "3 shape group 1 min_green"),
    ("1e3", "3 shape group 1 min_green"),
    ("nan", "3 shape group 1 min_green"),
    ("true", "3 shape group 1 min_green"),
    ("\"7\"", "3 shape group 1 min_green"),
    ("[7]", "3 shape group 1 min_green"),
    ("{}", "3 shape group 1 min_green"),
    ("1979-05-27", "3 shape group 1 min_green"),
    ("07:32:00", "3 shape group 1 min_green"),
    ("1979-05-27T07:32:00Z", "3 shape group 1 min_green"),
    ("9223372036854775808", "1 not_toml top 0 whole"),
    ("-9223372036854775809", "1 not_toml top 0 whole"),
    ("07", "1 not_toml top 0 whole"),
    ("1__0", "1 not_toml top 0 whole"),
    ("0X7", "1 not_toml top 0 whole"),
    ("7,", "1 not_toml top 0 whole"),
    ("--7", "1 not_toml top 0 whole"),
    ("", "1 not_toml top 0 whole"),
];

/// Names of lanes, titles and limits.
const TEXTS: [Row<'static>; 19] = [
    (&[("name = \"A1\"", "name = \"a-Z_09\"")], "a junction"),
    (
        &[("name = \"A1\"", "name = \"abcdefghijklmnop\"")],
        "a junction",
    ),
    (
        &[("name = \"A1\"", "name = \"abcdefghijklmnopq\"")],
        "6 name lane 1 name",
    ),
    (&[("name = \"A1\"", "name = \"\"")], "6 name lane 1 name"),
    (&[("name = \"A1\"", "name = \"A 1\"")], "6 name lane 1 name"),
    (
        &[("name = \"A1\"", "name = \"\u{e9}\"")],
        "6 name lane 1 name",
    ),
    (
        &[("name = \"A1\"", "name = \"A\\n\"")],
        "6 name lane 1 name",
    ),
    (
        &[("name = \"pair\"", "name = \"Mill Road / High Street\"")],
        "a junction",
    ),
    (&[("name = \"pair\"", "name = \" \"")], "a junction"),
    (
        &[(
            "name = \"pair\"",
            "name = \"012345678901234567890123456789012345678901234567890123456789\"",
        )],
        "a junction",
    ),
    (
        &[(
            "name = \"pair\"",
            "name = \"0123456789012345678901234567890123456789012345678901234567890\"",
        )],
        "6 name top 0 name",
    ),
    (&[("name = \"pair\"", "name = \"\"")], "6 name top 0 name"),
    (
        &[("name = \"pair\"", "name = \"\u{e9}\"")],
        "6 name top 0 name",
    ),
    (
        &[("name = \"pair\"", "name = \"a\\tb\"")],
        "6 name top 0 name",
    ),
    (&[("= 1800", "= 1800\nlimit = 1")], "a junction"),
    (&[("= 1800", "= 1800\nlimit = 1000")], "a junction"),
    (&[("= 1800", "= 1800\nlimit = 0")], "5 range lane 1 limit"),
    (
        &[("= 1800", "= 1800\nlimit = 1001")],
        "5 range lane 1 limit",
    ),
    (
        &[("= 1800", "= 1800\nlimit = \"900\"")],
        "3 shape lane 1 limit",
    ),
];

/// Reads a file whose first minimum green is each of these.
fn check_numbers(rt: &impl Abort, alloc: Global, rows: &[(&str, &str)]) -> Result<(), Fail> {
    for (value, want) in rows {
        let line = format!(in alloc; "min_green = {value}")?;
        check(
            rt,
            alloc,
            PAIR,
            &[(&[("min_green = 7", line.as_str())], *want)],
        )?;
    }
    Ok(())
}

#[test]
fn values_of_keys(rt: HostRuntime) -> Result<(), Fail> {
    check_numbers(&rt, rt.alloc(), &NUMBERS)?;
    check(&rt, rt.alloc(), PAIR, &TEXTS)
}

use junction_files::{print, read};
use samples::{CROSSROADS, EARLY_START, PAIR, RING};
use std::alloc::Global;
use std::test::Fail;

/// The bytes read as a junction, printed.
fn again(alloc: Global, bytes: &[u8]) -> Result<Vec<u8>, Fail> {
    Ok(print(alloc, &read(alloc, bytes)?)?)
}

/// The file of two groups as it is printed: its keys and values as docs/FILE-FORMAT.md lists them, with
/// the limit that is 900 where it is missing. The layout is toml's: a table's keys by their bytes, its
/// lists after its other keys, and a blank line before each table of a list.
const PRINTED: &str = "greatest_cycle = 60
least_cycle = 60
name = \"pair\"
version = 1

[[conflict]]
a = \"A\"
a_to_b = 5
b = \"B\"
b_to_a = 5

[[group]]
amber = 3
end_gain = 0
min_green = 7
name = \"A\"
red_amber = 2
start_lost = 0

[[group]]
amber = 3
end_gain = 0
min_green = 7
name = \"B\"
red_amber = 2
start_lost = 0

[[lane]]
arrival = 450
group = \"A\"
limit = 900
name = \"A1\"
saturation = 1800

[[lane]]
arrival = 450
group = \"B\"
limit = 900
name = \"B1\"
saturation = 1800
";

/// What is printed spells the same junction, and so is printed again alike.
#[test]
fn what_is_printed_reads_back(rt: HostRuntime) -> Result<(), Fail> {
    let alloc = rt.alloc();
    for text in [PAIR, RING, CROSSROADS, EARLY_START] {
        let junction = read(alloc, text.as_bytes())?;
        let printed = print(alloc, &junction)?;
        let back = read(alloc, &printed)?;
        assert_eq!(rt; back.groups(), junction.groups());
        assert_eq!(rt; back.lanes(), junction.lanes());
        assert_eq!(rt; back.conflicts().links(), junction.conflicts().links());
        assert_eq!(rt; again(alloc, &printed)?.as_slice(), printed.as_slice());
    }
    Ok(())
}

/// The file of two groups in inline tables, its keys in another order.
const INLINE: &str = "conflict = [{ a = \"A\", b = \"B\", a_to_b = 5, b_to_a = 0x5 }]
lane = [
    { name = \"A1\", group = \"A\", arrival = 450, saturation = 1_800, limit = 900 },
    { saturation = 1800, arrival = 450, group = 'B', name = '''B1''' }, # in another order
]
group = [
    { name = \"A\", min_green = 7, amber = 3, red_amber = 2, start_lost = 0, end_gain = 0 },
    { name = \"\\u0042\", \"min_green\" = 7, amber = 3, red_amber = 2, start_lost = 0, end_gain = 0 },
]
greatest_cycle = 60
least_cycle = +60
'name' = \"pair\"
\"version\" = 1
";

/// Returns before the ends of lines, a mark at the start, and a conflict in the other sense.
const REWRITTEN: [(&str, &str); 3] = [
    ("\n\n", "\r\n\r\n"),
    ("version", "\u{feff}version"),
    ("a = \"A\"\nb = \"B\"", "a = \"B\"\nb = \"A\""),
];

#[test]
fn one_junction_in_several_spellings(rt: HostRuntime) -> Result<(), Fail> {
    let alloc = rt.alloc();
    for text in [PAIR, INLINE, PRINTED] {
        let printed = again(alloc, text.as_bytes())?;
        assert_eq!(rt; printed.as_slice(), PRINTED.as_bytes());
    }
    for (old, new) in REWRITTEN {
        let text = PAIR.replace(alloc, old, new)?;
        let spelled = again(alloc, text.as_bytes())?;
        assert_eq!(rt; spelled.as_slice(), PRINTED.as_bytes(), "{new}");
    }
    Ok(())
}

/// The second version as it is printed, here without its lanes: each group gives its maximum, and the
/// links come last.
const SECOND: &str = "greatest_cycle = 60
least_cycle = 24
name = \"early start\"
version = 2

[[conflict]]
a = \"A\"
a_to_b = 5
b = \"B\"
b_to_a = 5

[[conflict]]
a = \"B\"
a_to_b = 5
b = \"C\"
b_to_a = 5

[[group]]
amber = 3
end_gain = 0
max_green = 20
min_green = 7
name = \"A\"
red_amber = 2
start_lost = 0

[[group]]
amber = 3
end_gain = 0
max_green = 300
min_green = 7
name = \"B\"
red_amber = 2
start_lost = 0

[[group]]
amber = 3
end_gain = 0
max_green = 300
min_green = 7
name = \"C\"
red_amber = 2
start_lost = 0
";

const LAST_LINK: &str = "
[[link]]
after = 10
follower = \"C\"
leader = \"A\"
";

#[test]
fn the_second_version_printed(rt: HostRuntime) -> Result<(), Fail> {
    let printed = String::from_utf8(again(rt.alloc(), EARLY_START.as_bytes())?)?;
    assert!(rt; printed.as_str().starts_with(SECOND));
    assert!(rt; printed.as_str().ends_with(LAST_LINK));
    Ok(())
}

/// What the sample of the second version is changed to, and the version that is printed.
const VERSIONS: [(&str, &str, &str); 3] = [
    ("max_green = 20", "max_green = 300", "version = 2"),
    ("after = 10", "after = 0", "version = 2"),
    ("leader = \"A\"", "leader = \"B\"", "version = 2"),
];

/// The second version is printed only where a maximum or a link asks for it.
#[test]
fn the_version_that_is_printed(rt: HostRuntime) -> Result<(), Fail> {
    let alloc = rt.alloc();
    for (old, new, version) in VERSIONS {
        let text = EARLY_START.replace(alloc, old, new)?;
        let printed = String::from_utf8(again(alloc, text.as_bytes())?)?;
        assert!(rt; printed.as_str().contains(version), "{new}");
    }
    let text = PAIR.replace(alloc, "version = 1", "version = 2\nlink = []")?;
    let printed = again(alloc, text.as_bytes())?;
    assert_eq!(rt; printed.as_slice(), PRINTED.as_bytes());
    let text = text
        .as_str()
        .replace(alloc, "end_gain = 0", "end_gain = 0\nmax_green = 299")?;
    let printed = String::from_utf8(again(alloc, text.as_bytes())?)?;
    assert!(rt; printed.as_str().contains("version = 2"));
    assert!(rt; !printed.as_str().contains("link"));
    Ok(())
}

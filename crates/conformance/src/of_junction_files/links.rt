use super::{Row, answer, check};
use samples::{EARLY_START, PAIR, SIXTEEN};
use std::alloc::Global;
use std::test::Fail;

const LINK: &str = "after = 10\n";

/// The one link of the three groups.
const LINKS: [Row<'static>; 17] = [
    (&[], "a junction"),
    (&[("after = 10", "after = 0")], "a junction"),
    (&[("after = 10", "after = 299")], "a junction"),
    (&[("after = 10", "after = 300")], "5 range link 1 after"),
    (&[("after = 10", "after = -1")], "5 range link 1 after"),
    (&[("after = 10", "after = \"10\"")], "3 shape link 1 after"),
    (&[("after = 10", "")], "3 shape link 1 after"),
    (&[("leader = \"A\"", "leader = 1")], "3 shape link 1 leader"),
    (&[("follower = \"C\"", "")], "3 shape link 1 follower"),
    (
        &[("after = 10", "after = 10\nx = 1")],
        "3 shape link 1 other",
    ),
    (
        &[("leader = \"A\"", "leader = \"X\"")],
        "7 unknown link 1 leader",
    ),
    (
        &[("follower = \"C\"", "follower = \"c\"")],
        "7 unknown link 1 follower",
    ),
    (
        &[("follower = \"C\"", "follower = \"A\"")],
        "16 self_link link 1 whole",
    ),
    (
        &[(
            LINK,
            "after = 10\n[[link]]\nleader = \"C\"\nfollower = \"A\"\nafter = 10\n",
        )],
        "17 link_twice link 2 whole",
    ),
    (
        &[(
            LINK,
            "after = 10\n[[link]]\nleader = \"A\"\nfollower = \"C\"\nafter = 11\n",
        )],
        "17 link_twice link 2 whole",
    ),
    (
        &[(
            LINK,
            "after = 10\n[[link]]\nleader = \"B\"\nfollower = \"A\"\nafter = 11\n",
        )],
        "a junction",
    ),
    (
        &[("version = 2", "version = 1"), ("max_green = 20", "")],
        "3 shape top 0 other",
    ),
];

/// Two changes: the kind that is looked for first is told, and links come after all other parts.
const TWO_FAULTS: [Row<'static>; 8] = [
    (
        &[("version = 2", "version = 3"), ("after = 10", "")],
        "2 version top 0 version",
    ),
    (
        &[("after = 10", ""), ("b_to_a = 5", "")],
        "3 shape conflict 1 b_to_a",
    ),
    (
        &[("after = 10", "after = 300"), ("= 20\n", "= 301\n")],
        "5 range group 1 max_green",
    ),
    (
        &[("after = 10", "after = 300"), ("\"A1\"", "\"B1\"")],
        "5 range link 1 after",
    ),
    (
        &[("\"C\"\nafter", "\"X\"\nafter"), ("b = \"B\"", "b = \"A\"")],
        "7 unknown link 1 follower",
    ),
    (
        &[("\"C\"\nafter", "\"A\"\nafter"), ("= 20\n", "= 6\n")],
        "15 max_green group 1 max_green",
    ),
    (
        &[
            ("\"C\"\nafter", "\"A\"\nafter"),
            ("a_to_b = 5", "a_to_b = 2"),
        ],
        "11 short_intergreen conflict 1 a_to_b",
    ),
    (
        &[(
            LINK,
            "after = 10\n[[link]]\nleader = \"A\"\nfollower = \"C\"\nafter = 11\n[[link]]\nleader = \"B\"\nfollower = \"B\"\nafter = 0\n",
        )],
        "16 self_link link 3 whole",
    ),
];

/// Lists that aren't lists of tables, in either version.
const LISTS: [Row<'static>; 7] = [
    (&[("version = 1", "version = 2\nlink = []")], "a junction"),
    (
        &[("version = 1", "version = 2\nlink = 1")],
        "3 shape top 0 link",
    ),
    (
        &[("version = 1", "version = 2\nlink = {}")],
        "3 shape top 0 link",
    ),
    (
        &[("version = 1", "version = 2\nlink = [1]")],
        "3 shape link 1 whole",
    ),
    (
        &[("version = 1", "version = 2\nlink = [{}]\nx = 1")],
        "3 shape top 0 other",
    ),
    (
        &[("version = 1", "version = 1\nlink = []")],
        "3 shape top 0 other",
    ),
    (
        &[("version = 1", "version = 1\nlink = [1]")],
        "3 shape top 0 other",
    ),
];

#[test]
fn links(rt: HostRuntime) -> Result<(), Fail> {
    check(&rt, rt.alloc(), EARLY_START, &LINKS)?;
    check(&rt, rt.alloc(), EARLY_START, &TWO_FAULTS)?;
    check(&rt, rt.alloc(), PAIR, &LISTS)
}

const FOLLOWERS: [&str; 13] = [
    "B", "C", "D", "E", "F", "G", "H", "I", "J", "K", "L", "M", "N",
];

/// The file of sixteen groups with links from the first one to the next ones.
fn with_links(alloc: Global, links: usize) -> Result<String, Fail> {
    let mut text = SIXTEEN.replace(alloc, "version = 1", "version = 2")?;
    for follower in FOLLOWERS.iter().take(links) {
        let link = format!(in alloc;
            "[[link]]\nleader = \"A\"\nfollower = \"{follower}\"\nafter = 0\n"
        )?;
        text.push_str(link.as_str())?;
    }
    Ok(text)
}

#[test]
fn at_most_twelve_links(rt: HostRuntime) -> Result<(), Fail> {
    for (links, want) in [
        (12, "a junction\n"),
        (13, "bad junction 4 count top 0 link\n"),
    ] {
        let text = with_links(rt.alloc(), links)?;
        let line = answer(rt.alloc(), text.as_bytes())?;
        assert_eq!(rt; line.as_str(), want, "{links} links");
    }
    Ok(())
}

use super::{Row, check};
use std::test::Fail;

/// A file whose lists are empty.
const EMPTY: &str =
    "version = 1\nname = \"empty\"\nleast_cycle = 60\ngreatest_cycle = 60\ngroup = []\nlane = []\nconflict = []\n";

/// Lists of another kind, and texts that are no documents.
const LISTS: [Row<'static>; 19] = [
    (&[("version = 1", "")], "2 version top 0 version"),
    (&[("version = 1", "version = ")], "1 not_toml top 0 whole"),
    (&[("version = 1", "version = 3")], "2 version top 0 version"),
    (
        &[("version = 1", "version = 1\nversion = 1")],
        "1 not_toml top 0 whole",
    ),
    (
        &[("group = []", "[group]\n[group]")],
        "1 not_toml top 0 whole",
    ),
    (&[("conflict = []", "[[group]]")], "1 not_toml top 0 whole"),
    (&[("group = []", "")], "3 shape top 0 group"),
    (&[("lane = []", "")], "3 shape top 0 lane"),
    (&[("name", "name")], "4 count top 0 group"),
    (&[("group = []", "group = {}")], "3 shape top 0 group"),
    (&[("group = []", "group = \"A\"")], "3 shape top 0 group"),
    (&[("group = []", "group = [1, 2]")], "3 shape group 1 whole"),
    (
        &[("group = []", "group = [[], {}]")],
        "3 shape group 1 whole",
    ),
    (&[("lane = []", "lane = [{}, 2]")], "3 shape lane 1 name"),
    (
        &[("conflict = []", "conflict = [\"A\"]")],
        "3 shape conflict 1 whole",
    ),
    (
        &[("group = []", "group.name = \"A\"")],
        "3 shape top 0 group",
    ),
    (
        &[
            ("group = []", "group = [1]"),
            ("conflict = []", "conflict = []\nx = 1"),
        ],
        "3 shape top 0 other",
    ),
    (
        &[
            ("group = []\n", ""),
            ("conflict = []\n", "conflict = []\n[group]\nname = \"A\""),
        ],
        "3 shape top 0 group",
    ),
    (
        &[
            ("group = []\n", ""),
            ("conflict = []\n", "conflict = []\n[group.A]"),
        ],
        "3 shape top 0 group",
    ),
];

#[test]
fn what_stands_at_the_lists(rt: HostRuntime) -> Result<(), Fail> {
    check(&rt, rt.alloc(), EMPTY, &LISTS)
}

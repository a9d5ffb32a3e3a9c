use super::{Row, check};
use samples::PAIR;
use std::test::Fail;

/// A fault of each kind.
const FAULTS: [Row<'static>; 33] = [
    (&[("version = 1", "")], "2 version top 0 version"),
    (&[("version = 1", "version = 3")], "2 version top 0 version"),
    (
        &[("version = 1", "version = \"1\"")],
        "2 version top 0 version",
    ),
    (
        &[("version = 1", "version = 1.0")],
        "2 version top 0 version",
    ),
    (
        &[("version = 1", "version.x = 1")],
        "2 version top 0 version",
    ),
    (
        &[("version = 1", "version = 1\nx = 1")],
        "3 shape top 0 other",
    ),
    (&[("name = \"pair\"", "")], "3 shape top 0 name"),
    (
        &[("name = \"pair\"", "Name = \"pair\"")],
        "3 shape top 0 name",
    ),
    (&[("name = \"pair\"", "name = 1")], "3 shape top 0 name"),
    (&[("amber = 3", "ambre = 3")], "3 shape group 1 amber"),
    (
        &[("amber = 3", "amber = 3\nx = 1")],
        "3 shape group 1 other",
    ),
    (
        &[("arrival = 450", "arrival = 4.5")],
        "3 shape lane 1 arrival",
    ),
    (&[("b_to_a = 5", "")], "3 shape conflict 1 b_to_a"),
    (
        &[("b_to_a = 5", "b_to_a = 5\nc = 5")],
        "3 shape conflict 1 other",
    ),
    (
        &[("t_cycle = 60", "t_cycle = 1_000")],
        "5 range top 0 least_cycle",
    ),
    (
        &[("t_cycle = 60", "t_cycle = 0")],
        "5 range top 0 least_cycle",
    ),
    (
        &[("t_cycle = 60", "t_cycle = 61")],
        "5 range top 0 greatest_cycle",
    ),
    (&[("60\n\n", "301\n\n")], "5 range top 0 greatest_cycle"),
    (&[("amber = 3", "amber = 31")], "5 range group 1 amber"),
    (
        &[("amber = 3", "amber = 4294967299")],
        "5 range group 1 amber",
    ),
    (
        &[("arrival = 450", "arrival = 20001")],
        "5 range lane 1 arrival",
    ),
    (&[("= 1800", "= 0")], "5 range lane 1 saturation"),
    (
        &[("a_to_b = 5", "a_to_b = 61")],
        "5 range conflict 1 a_to_b",
    ),
    (&[("name = \"B\"", "name = \"A\"")], "6 name group 2 name"),
    (&[("name = \"B1\"", "name = \"A1\"")], "6 name lane 2 name"),
    (
        &[("group = \"B\"", "group = \"X\"")],
        "7 unknown lane 2 group",
    ),
    (&[("\na = \"A\"", "\na = \"a\"")], "7 unknown conflict 1 a"),
    (
        &[("b = \"B\"", "b = \"A\"")],
        "8 self_conflict conflict 1 whole",
    ),
    (
        &[(
            "[[conflict]]",
            "[[conflict]]
a = \"B\"
b = \"A\"
a_to_b = 5
b_to_a = 5

[[conflict]]",
        )],
        "9 twice conflict 2 whole",
    ),
    (
        &[(
            "[[conflict]]",
            "[[group]]
name = \"C\"
min_green = 7
amber = 3
red_amber = 2
start_lost = 0
end_gain = 0

[[conflict]]",
        )],
        "10 lonely group 3 whole",
    ),
    (
        &[("a_to_b = 5", "a_to_b = 2")],
        "11 short_intergreen conflict 1 a_to_b",
    ),
    (
        &[("b_to_a = 5", "b_to_a = 2")],
        "11 short_intergreen conflict 1 b_to_a",
    ),
    (
        &[("end_gain = 0", "end_gain = 4")],
        "12 end_gain group 1 end_gain",
    ),
];

/// Two changes: the kind that is looked for first is told, wherever it stands.
const TWO_FAULTS: [Row<'static>; 10] = [
    (
        &[("version = 1", "version = 3"), ("b_to_a = 5", "b_to_a")],
        "1 not_toml top 0 whole",
    ),
    (
        &[
            ("name = \"pair\"", "name = 1"),
            ("version = 1", "version = 3"),
        ],
        "2 version top 0 version",
    ),
    (
        &[
            ("t_cycle = 60", "t_cycle = 0"),
            ("b_to_a = 5", "b_to_a = 5.0"),
        ],
        "3 shape conflict 1 b_to_a",
    ),
    (
        &[
            ("arrival = 450", "arrival = -1"),
            ("amber = 3", "amber = 31"),
        ],
        "5 range group 1 amber",
    ),
    (
        &[
            ("name = \"A\"", "name = \"\""),
            ("b_to_a = 5", "b_to_a = 61"),
        ],
        "5 range conflict 1 b_to_a",
    ),
    (
        &[
            ("group = \"A\"", "group = \"X\""),
            ("name = \"B1\"", "name = \"A1\""),
        ],
        "6 name lane 2 name",
    ),
    (
        &[
            ("end_gain = 0", "end_gain = 4"),
            ("a_to_b = 5", "a_to_b = 2"),
        ],
        "11 short_intergreen conflict 1 a_to_b",
    ),
    (
        &[
            ("end_gain = 0", "end_gain = 4"),
            ("end_gain = 0", "end_gain = 4"),
        ],
        "12 end_gain group 1 end_gain",
    ),
    (
        &[("lost = 0", "lost = 7"), ("lost = 0", "lost = 7")],
        "13 no_effective group 1 start_lost",
    ),
    (
        &[
            ("arrival = 450", "arrival = 0"),
            ("arrival = 450", "arrival = 0"),
        ],
        "14 no_flow top 0 lane",
    ),
];

#[test]
fn the_first_fault_is_told(rt: HostRuntime) -> Result<(), Fail> {
    check(&rt, rt.alloc(), PAIR, &FAULTS)?;
    check(&rt, rt.alloc(), PAIR, &TWO_FAULTS)
}

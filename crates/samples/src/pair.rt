use crate::texts::changed;
use sig_base::LaneSet;
use std::alloc::{AllocError, Global};
use std::test::Fail;

/// Two groups, a lane of each, and the one conflict between them.
pub const PAIR: &str = "version = 1
name = \"pair\"
least_cycle = 60
greatest_cycle = 60

[[group]]
name = \"A\"
min_green = 7
amber = 3
red_amber = 2
start_lost = 0
end_gain = 0

[[group]]
name = \"B\"
min_green = 7
amber = 3
red_amber = 2
start_lost = 0
end_gain = 0

[[lane]]
name = \"A1\"
group = \"A\"
arrival = 450
saturation = 1800

[[lane]]
name = \"B1\"
group = \"B\"
arrival = 450
saturation = 1800

[[conflict]]
a = \"A\"
b = \"B\"
a_to_b = 5
b_to_a = 5
";

/// What differs from group to group, with its one lane.
#[derive(Clone, Copy)]
pub struct Side {
    pub min_green: u32,
    pub amber: u32,
    pub red_amber: u32,
    pub start_lost: u32,
    pub end_gain: u32,
    pub arrival: u32,
    pub saturation: u32,
    pub limit: u32,
}

pub const COMMON: Side = Side {
    min_green: 7,
    amber: 3,
    red_amber: 2,
    start_lost: 0,
    end_gain: 0,
    arrival: 450,
    saturation: 1800,
    limit: 900,
};

pub const BUSY: Side = Side {
    arrival: 600,
    ..COMMON
};

pub const QUIET: Side = Side {
    arrival: 300,
    ..COMMON
};

/// A green is enough where it is at least four tenths of the cycle.
pub const SATURATED: Side = Side {
    min_green: 1,
    amber: 2,
    red_amber: 2,
    start_lost: 0,
    end_gain: 0,
    arrival: 720,
    saturation: 1800,
    limit: 1000,
};

pub const NO_LANES: LaneSet = LaneSet { bits: 0 };

/// The lane of group A.
pub const FIRST_LANE: LaneSet = LaneSet { bits: 1 };

/// The lane of group B.
pub const SECOND_LANE: LaneSet = LaneSet { bits: 2 };

/// The file of a junction of the groups A and B with these cycles, and the intergreens from A to B and
/// from B to A.
pub fn pair(
    alloc: Global,
    cycles: (u32, u32),
    a: Side,
    b: Side,
    intergreens: (u32, u32),
) -> Result<String, AllocError> {
    let sides = format!(in alloc; "{}{}", tables(alloc, "A", a)?, tables(alloc, "B", b)?)?;
    let (least, greatest) = cycles;
    let (forth, back) = intergreens;
    format!(in alloc;
        "version = 1\nname = \"pair\"\nleast_cycle = {least}\ngreatest_cycle = {greatest}\n{sides}[[conflict]]\na = \"A\"\nb = \"B\"\na_to_b = {forth}\nb_to_a = {back}\n"
    )
}

fn tables(alloc: Global, name: &str, side: Side) -> Result<String, AllocError> {
    let Side {
        min_green,
        amber,
        red_amber,
        start_lost,
        end_gain,
        arrival,
        saturation,
        limit,
    } = side;
    format!(in alloc;
        "[[group]]\nname = \"{name}\"\nmin_green = {min_green}\namber = {amber}\nred_amber = {red_amber}\nstart_lost = {start_lost}\nend_gain = {end_gain}\n[[lane]]\nname = \"{name}1\"\ngroup = \"{name}\"\narrival = {arrival}\nsaturation = {saturation}\nlimit = {limit}\n"
    )
}

/// The pair in a file of version 2, where its group A may be green for 20 seconds.
pub fn bounded_pair(alloc: Global) -> Result<String, Fail> {
    let second = changed(alloc, PAIR, "version = 1", "version = 2")?;
    changed(alloc, &second, "gain = 0", "gain = 0\nmax_green = 20")
}

/// The pair in a file of version 2, where each of its groups may be green for 16 seconds.
pub fn short_pair(alloc: Global) -> Result<String, Fail> {
    let second = changed(alloc, PAIR, "version = 1", "version = 2")?;
    Ok(second.replace(alloc, "gain = 0", "gain = 0\nmax_green = 16")?)
}

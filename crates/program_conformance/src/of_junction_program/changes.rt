//! Changes of a file, each of the first place of an old text to a new one. They are made one after another, so that a
//! change that is listed twice is made for both groups or both lanes of the pair.
use samples::texts::changed;
use std::alloc::Global;
use std::test::Fail;

pub type Changes<'a> = &'a [(&'a str, &'a str)];

pub fn with_changes(alloc: Global, file: &str, changes: Changes) -> Result<String, Fail> {
    let mut text = file.to_string(alloc)?;
    for (old, new) in changes {
        text = changed(alloc, text.as_str(), old, new)?;
    }
    Ok(text)
}

pub const SECOND_VERSION: (&str, &str) = ("version = 1", "version = 2");

/// The first group may be green for 20 seconds.
pub const BOUNDED: Changes<'static> = &[
    SECOND_VERSION,
    ("end_gain = 0", "end_gain = 0\nmax_green = 20"),
];

/// The early start, with no longest green.
pub const UNBOUNDED: (&str, &str) = ("max_green = 20\n", "");

pub const OF_24_TO_60: &str = "least_cycle = 24\ngreatest_cycle = 60";

pub const OF_39_TO_60: &str = "least_cycle = 39\ngreatest_cycle = 60";

pub const OF_60: &str = "least_cycle = 60\ngreatest_cycle = 60";

/// A group of the pair has shorter times.
pub const QUICK: (&str, &str) = (
    "min_green = 7\namber = 3\nred_amber = 2",
    "min_green = 1\namber = 2\nred_amber = 2",
);

/// A group of the pair needs four tenths of the cycle.
pub const SATURATED: (&str, &str) = (
    "arrival = 450\nsaturation = 1800",
    "arrival = 720\nsaturation = 1800\nlimit = 1000",
);

/// Two seconds pass between the groups of the pair.
pub const CLOSE: (&str, &str) = ("a_to_b = 5\nb_to_a = 5", "a_to_b = 2\nb_to_a = 2");

ghost use Rattle.std.specs.Prelude.{◌≡◌, ◌↔◌, map, string_bytes, Any, Contains, IsTrue};
ghost use Rattle.std.specs.BTreeMap.{keys};
ghost use Rattle.toml.specs.View.{view};
ghost use Rattle.junction_files.specs.Document.{word_of, part_keys, value_in};
ghost use Rattle.junction_files.specs.Rules.{sort_of};
ghost use Rattle.junction_files.specs.Faults.{IsMisshaped, IsOtherWord, HasOtherKind, ShapeFault};

use crate::document::{Version, list, text, value, whole, word};
use crate::faults::{Key, Part};
use toml::{Table, Value};

/// The kind of value that a key asks for.
#[derive(Clone, Copy, Debug, PartialEq, Eq)]
pub enum Sort {
    Text,
    Whole,
    WholeOrMissing,
    Tables,
    TablesOrMissing,
}

fn top_keys(version: Version) -> &'static [Key]
    ensures { result.now ≡ part_keys Part.Top version }
{
    match version {
        Version::First => &[
            Key::Version,
            Key::Name,
            Key::LeastCycle,
            Key::GreatestCycle,
            Key::Group,
            Key::Lane,
            Key::Conflict,
        ],
        Version::Second => &[
            Key::Version,
            Key::Name,
            Key::LeastCycle,
            Key::GreatestCycle,
            Key::Group,
            Key::Lane,
            Key::Conflict,
            Key::Link,
        ],
    }
}

fn group_keys(version: Version) -> &'static [Key]
    ensures { result.now ≡ part_keys Part.Group version }
{
    match version {
        Version::First => &[
            Key::Name,
            Key::MinGreen,
            Key::Amber,
            Key::RedAmber,
            Key::StartLost,
            Key::EndGain,
        ],
        Version::Second => &[
            Key::Name,
            Key::MinGreen,
            Key::Amber,
            Key::RedAmber,
            Key::StartLost,
            Key::EndGain,
            Key::MaxGreen,
        ],
    }
}

/// The keys that a table of the part may hold in the version.
fn part_keys(part: Part, version: Version) -> &'static [Key]
    ensures { result.now ≡ part_keys part version }
{
    match part {
        Part::Top => top_keys(version),
        Part::Group => group_keys(version),
        Part::Lane => &[
            Key::Name,
            Key::Group,
            Key::Arrival,
            Key::Saturation,
            Key::Limit,
        ],
        Part::Conflict => &[Key::A, Key::B, Key::AToB, Key::BToA],
        Part::Link => &[Key::Leader, Key::Follower, Key::After],
    }
}

fn is_part_key(part: Part, version: Version, found: &str) -> bool
    ensures { IsTrue result ↔ Contains (map word_of (part_keys part version)) found.now }
{
    for key in part_keys(part, version) {
        if word(*key) == found {
            return true;
        }
    }
    false
}

fn has_other_word(part: Part, version: Version, table: &Table) -> bool
    ensures { IsTrue result ↔ Any (IsOtherWord part version) (map string_bytes (keys table.now)) }
{
    for found in table.keys() {
        if !is_part_key(part, version, found.as_str()) {
            return true;
        }
    }
    false
}

fn has_other_key(part: Part, version: Version, element: &Value) -> bool
    ensures { IsTrue result ↔ ShapeFault version part (view element.now) Key.Other }
{
    match element.as_table() {
        Some(table) => has_other_word(part, version, table),
        None => false,
    }
}

/// The kind of value that a key of the first version asks for.
fn first_sort_of(part: Part, key: Key) -> Option<Sort>
    ensures { result ≡ sort_of part key Version.First }
{
    match (part, key) {
        (Part::Top | Part::Group | Part::Lane, Key::Name) => Some(Sort::Text),
        (Part::Lane, Key::Group) => Some(Sort::Text),
        (Part::Conflict, Key::A | Key::B) => Some(Sort::Text),
        (Part::Top, Key::LeastCycle | Key::GreatestCycle) => Some(Sort::Whole),
        (Part::Top, Key::Group | Key::Lane | Key::Conflict) => Some(Sort::Tables),
        (Part::Group, Key::MinGreen | Key::Amber | Key::RedAmber) => Some(Sort::Whole),
        (Part::Group, Key::StartLost | Key::EndGain) => Some(Sort::Whole),
        (Part::Lane, Key::Arrival | Key::Saturation) => Some(Sort::Whole),
        (Part::Lane, Key::Limit) => Some(Sort::WholeOrMissing),
        (Part::Conflict, Key::AToB | Key::BToA) => Some(Sort::Whole),
        (Part::Link, Key::Leader | Key::Follower) => Some(Sort::Text),
        (Part::Link, Key::After) => Some(Sort::Whole),
        _ => None,
    }
}

/// The kind of value that a key of the version asks for.
fn sort_of(part: Part, key: Key, version: Version) -> Option<Sort>
    ensures { result ≡ sort_of part key version }
{
    match (part, key, version) {
        (Part::Top, Key::Link, Version::Second) => Some(Sort::TablesOrMissing),
        (Part::Group, Key::MaxGreen, Version::Second) => Some(Sort::WholeOrMissing),
        _ => first_sort_of(part, key),
    }
}

fn is_misshaped(sort: Sort, element: &Value, key: Key) -> bool
    ensures { IsTrue result ↔ IsMisshaped sort (value_in (view element.now) key) }
{
    match sort {
        Sort::Text => text(element, key).is_none(),
        Sort::Whole => whole(element, key).is_none(),
        Sort::WholeOrMissing => match value(element, key) {
            Some(value) => value.as_integer().is_none(),
            None => false,
        },
        Sort::Tables => list(element, key).is_none(),
        Sort::TablesOrMissing => match value(element, key) {
            Some(value) => value.as_array().is_none(),
            None => false,
        },
    }
}

fn has_other_kind(part: Part, version: Version, element: &Value, key: Key) -> bool
    ensures { IsTrue result ↔ HasOtherKind version part (view element.now) key }
{
    match sort_of(part, key, version) {
        Some(sort) => is_misshaped(sort, element, key),
        None => false,
    }
}

/// The element isn't a table, or holds a key that isn't listed, or a key's value has another kind
/// than it asks for.
pub fn is_shape_fault(version: Version, part: Part, element: &Value, key: Key) -> bool
    ensures { IsTrue result ↔ ShapeFault version part (view element.now) key }
{
    match key {
        Key::Whole => element.as_table().is_none(),
        Key::Other => has_other_key(part, version, element),
        _ => element.as_table().is_some() && has_other_kind(part, version, element, key),
    }
}

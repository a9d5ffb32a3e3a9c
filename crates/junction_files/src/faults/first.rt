ghost use Rattle.std.specs.Prelude.{◌≡◌};
ghost use Rattle.toml.specs.View.{view};
ghost use Rattle.junction_files.specs.Faults.{IsWrong};
ghost use Rattle.junction_files.specs.FirstFault.{all_kinds, all_parts, all_keys, IsListOf, FirstKeyOrNone, FirstInOrNone, FirstOfOrNone, FirstFaultOrNone};

use crate::document::elements;
use crate::faults::rule::is_wrong;
use crate::faults::spot::Spot;
use crate::faults::{Key, Kind, Part};
use toml::Value;

fn kinds() -> [Kind; 17]
    ensures { result ≡ all_kinds }
{
    [
        Kind::NotToml,
        Kind::Version,
        Kind::Shape,
        Kind::Count,
        Kind::Range,
        Kind::Name,
        Kind::Unknown,
        Kind::SelfConflict,
        Kind::Twice,
        Kind::Lonely,
        Kind::ShortIntergreen,
        Kind::EndGain,
        Kind::NoEffective,
        Kind::NoFlow,
        Kind::MaxGreen,
        Kind::SelfLink,
        Kind::LinkTwice,
    ]
}

fn parts() -> [Part; 5]
    ensures { result ≡ all_parts }
{
    [
        Part::Top,
        Part::Group,
        Part::Lane,
        Part::Conflict,
        Part::Link,
    ]
}

fn keys() -> [Key; 26]
    ensures { result ≡ all_keys }
{
    [
        Key::Whole,
        Key::Version,
        Key::Name,
        Key::LeastCycle,
        Key::GreatestCycle,
        Key::Group,
        Key::Lane,
        Key::Conflict,
        Key::Link,
        Key::MinGreen,
        Key::Amber,
        Key::RedAmber,
        Key::StartLost,
        Key::EndGain,
        Key::MaxGreen,
        Key::Arrival,
        Key::Saturation,
        Key::Limit,
        Key::A,
        Key::B,
        Key::AToB,
        Key::BToA,
        Key::Leader,
        Key::Follower,
        Key::After,
        Key::Other,
    ]
}

/// The first key of an element at which the kind's rule is broken.
fn first_key(document: &Value, kind: Kind, part: Part, index: usize, element: &Value) -> Option<Key>
    ensures { FirstKeyOrNone
        (IsWrong (view document.now) kind part index (view element.now)) result }
{
    let keys = keys();
    for key in &keys {
        let spot = Spot {
            part,
            index,
            key: *key,
        };
        if is_wrong(document, kind, spot, element) {
            return Some(*key);
        }
    }
    None
}

/// The first fault of the kind at the top.
fn first_at_top(document: &Value, kind: Kind) -> Option<Spot>
    ensures { FirstInOrNone (view document.now) kind Part.Top result }
{
    match first_key(document, kind, Part::Top, 0, document) {
        Some(key) => Some(Spot {
            part: Part::Top,
            index: 0,
            key,
        }),
        None => None,
    }
}

/// The first fault of the kind in a part whose elements stand in the list at a key.
fn first_in_list(document: &Value, kind: Kind, part: Part, list: Key) -> Option<Spot>
    requires { IsListOf (view document.now) part list }
    ensures { FirstInOrNone (view document.now) kind part result }
{
    let elements = elements(document, list);
    for (i, element) in elements.iter().enumerate() {
        if let Some(key) = first_key(document, kind, part, i + 1, element) {
            return Some(Spot {
                part,
                index: i + 1,
                key,
            });
        }
    }
    None
}

/// The first fault of the kind in a part.
fn first_in(document: &Value, kind: Kind, part: Part) -> Option<Spot>
    ensures { FirstInOrNone (view document.now) kind part result }
{
    match part {
        Part::Top => first_at_top(document, kind),
        Part::Group => first_in_list(document, kind, Part::Group, Key::Group),
        Part::Lane => first_in_list(document, kind, Part::Lane, Key::Lane),
        Part::Conflict => first_in_list(document, kind, Part::Conflict, Key::Conflict),
        Part::Link => first_in_list(document, kind, Part::Link, Key::Link),
    }
}

/// The first fault of the kind.
pub fn first_of(document: &Value, kind: Kind) -> Option<Spot>
    ensures { FirstOfOrNone (view document.now) kind result }
{
    let parts = parts();
    for part in &parts {
        if let Some(spot) = first_in(document, kind, *part) {
            return Some(spot);
        }
    }
    None
}

/// The first of all faults.
pub fn first_fault(document: &Value) -> Option<(Kind, Spot)>
    ensures { FirstFaultOrNone (view document.now) result }
{
    let kinds = kinds();
    for kind in &kinds {
        if let Some(spot) = first_of(document, *kind) {
            return Some((*kind, spot));
        }
    }
    None
}

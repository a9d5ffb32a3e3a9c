ghost use Rattle.std.specs.Prelude.{◌↔◌, IsTrue};
ghost use Rattle.toml.specs.View.{view};
ghost use Rattle.junction_files.specs.Document.{text_in};
ghost use Rattle.junction_files.specs.Faults.{IsAbove, SomeHasMore, HasMore, IsShort, ShortIntergreenFault};

use crate::document::{elements, text, whole};
use crate::faults::name::is_named;
use crate::faults::{Key, Part};
use toml::Value;

fn is_above(group: &Value, key: Key, number: i64) -> bool
    ensures { IsTrue result ↔ IsAbove (view group.now) key number }
{
    match whole(group, key) {
        Some(value) => number < value,
        None => false,
    }
}

fn some_has_more(document: &Value, name: &str, key: Key, number: i64) -> bool
    ensures { IsTrue result ↔ SomeHasMore (view document.now) name.now key number }
{
    let groups = elements(document, Key::Group);
    groups.iter().any(|group| is_named(group, name) && is_above(group, key, number))
}

/// The group at one side of a conflict has at this key more than the number.
fn has_more(document: &Value, conflict: &Value, side: Key, key: Key, number: i64) -> bool
    ensures { IsTrue result
        ↔ HasMore (view document.now) (text_in (view conflict.now) side) key number }
{
    match text(conflict, side) {
        Some(name) => some_has_more(document, name, key, number),
        None => false,
    }
}

fn is_too_short(document: &Value, conflict: &Value, from: Key, to: Key, key: Key) -> bool
    ensures { IsTrue result ↔ IsShort (view document.now) (view conflict.now) from to key }
{
    match whole(conflict, key) {
        Some(intergreen) => {
            has_more(document, conflict, from, Key::Amber, intergreen)
                || has_more(document, conflict, to, Key::RedAmber, intergreen)
        }
        None => false,
    }
}

/// The intergreen at the key is below the amber of the group that it leaves or below the red-amber of
/// the group that it goes to.
pub fn is_short_intergreen_fault(document: &Value, part: Part, element: &Value, key: Key) -> bool
    ensures { IsTrue result ↔ ShortIntergreenFault (view document.now) part (view element.now) key }
{
    match (part, key) {
        (Part::Conflict, Key::AToB) => is_too_short(document, element, Key::A, Key::B, key),
        (Part::Conflict, Key::BToA) => is_too_short(document, element, Key::B, Key::A, key),
        _ => false,
    }
}

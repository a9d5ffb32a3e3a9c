ghost use Rattle.std.specs.Prelude.{◌↔◌, IsTrue};
ghost use Rattle.toml.specs.View.{view};
ghost use Rattle.junction_files.specs.Document.{text_in};
ghost use Rattle.junction_files.specs.Faults.{IsUnknown, UnknownFault};

use crate::document::text;
use crate::faults::name::names_group;
use crate::faults::{Key, Part};
use toml::Value;

fn is_unknown(document: &Value, element: &Value, key: Key) -> bool
    ensures { IsTrue result ↔ IsUnknown (view document.now) (text_in (view element.now) key) }
{
    match text(element, key) {
        Some(name) => !names_group(document, name),
        None => false,
    }
}

/// A lane's group, or a group of a conflict or of a link, is the name of no group.
pub fn is_unknown_fault(document: &Value, part: Part, element: &Value, key: Key) -> bool
    ensures { IsTrue result ↔ UnknownFault (view document.now) part (view element.now) key }
{
    match (part, key) {
        (Part::Lane, Key::Group) => is_unknown(document, element, key),
        (Part::Conflict, Key::A | Key::B) => is_unknown(document, element, key),
        (Part::Link, Key::Leader | Key::Follower) => is_unknown(document, element, key),
        _ => false,
    }
}

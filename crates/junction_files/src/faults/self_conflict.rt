ghost use Rattle.std.specs.Prelude.{◌↔◌, IsTrue};
ghost use Rattle.toml.specs.View.{view};
ghost use Rattle.junction_files.specs.Faults.{NamesOneGroup, SelfConflictFault};

use crate::document::text;
use crate::faults::{Key, Part};
use toml::Value;

/// One group is named at both keys.
pub fn names_one_group(element: &Value, one: Key, other: Key) -> bool
    ensures { IsTrue result ↔ NamesOneGroup one other (view element.now) }
{
    match text(element, one) {
        Some(name) => text(element, other) == Some(name),
        None => false,
    }
}

/// The element is a conflict of a group with itself.
pub fn is_self_conflict_fault(part: Part, element: &Value, key: Key) -> bool
    ensures { IsTrue result ↔ SelfConflictFault part (view element.now) key }
{
    match (part, key) {
        (Part::Conflict, Key::Whole) => names_one_group(element, Key::A, Key::B),
        _ => false,
    }
}

ghost use Rattle.std.specs.Prelude.{◌↔◌, IsTrue, Any};
ghost use Rattle.toml.specs.View.{view};
ghost use Rattle.junction_files.specs.Document.{conflicts_in};
ghost use Rattle.junction_files.specs.Faults.{Involves, LonelyFault};

use crate::document::{elements, text};
use crate::faults::{Key, Part};
use toml::Value;

fn involves(conflict: &Value, name: &str) -> bool
    ensures { IsTrue result ↔ Involves name.now (view conflict.now) }
{
    text(conflict, Key::A) == Some(name) || text(conflict, Key::B) == Some(name)
}

fn has_conflict(document: &Value, name: &str) -> bool
    ensures { IsTrue result ↔ Any (Involves name.now) (conflicts_in (view document.now)) }
{
    elements(document, Key::Conflict)
        .iter()
        .any(|conflict| involves(conflict, name))
}

fn is_lonely(document: &Value, group: &Value) -> bool
    ensures { IsTrue result
        ↔ LonelyFault (view document.now) Part.Group (view group.now) Key.Whole }
{
    match text(group, Key::Name) {
        Some(name) => !has_conflict(document, name),
        None => false,
    }
}

/// The element is a group that stands in no conflict.
pub fn is_lonely_fault(document: &Value, part: Part, element: &Value, key: Key) -> bool
    ensures { IsTrue result ↔ LonelyFault (view document.now) part (view element.now) key }
{
    match (part, key) {
        (Part::Group, Key::Whole) => is_lonely(document, element),
        _ => false,
    }
}

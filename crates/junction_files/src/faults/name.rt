ghost use Rattle.std.specs.Prelude.{◌↔◌, IsTrue, Any};
ghost use Rattle.toml.specs.View.{view};
ghost use Rattle.junction_files.specs.Document.{groups_in, elements_in};
ghost use Rattle.junction_files.specs.Faults.{IsNamed, IsNamedEarlier, IsWrongTitle, IsWrongLabel, NameFault};

use crate::document::{elements, elements_before, text};
use crate::faults::{Key, Part};
use sig_base::{Label, Title};
use toml::Value;

pub fn is_named(element: &Value, name: &str) -> bool
    ensures { IsTrue result ↔ IsNamed name.now (view element.now) }
{
    text(element, Key::Name) == Some(name)
}

/// The name is that of some group.
pub fn names_group(document: &Value, name: &str) -> bool
    ensures { IsTrue result ↔ Any (IsNamed name.now) (groups_in (view document.now)) }
{
    elements(document, Key::Group)
        .iter()
        .any(|group| is_named(group, name))
}

fn is_wrong_title(document: &Value) -> bool
    ensures { IsTrue result ↔ IsWrongTitle (view document.now) }
{
    match text(document, Key::Name) {
        Some(name) => Title::new(name.as_bytes()).is_none(),
        None => false,
    }
}

/// An element before this number of the list at a key has the name.
fn is_named_earlier(document: &Value, list: Key, number: usize, name: &str) -> bool
    ensures { IsTrue result
        ↔ IsNamedEarlier (elements_in (view document.now) list) number name.now }
{
    elements_before(document, list, number)
        .iter()
        .any(|element| is_named(element, name))
}

fn is_wrong_label(document: &Value, list: Key, number: usize, element: &Value) -> bool
    ensures { IsTrue result
        ↔ IsWrongLabel (elements_in (view document.now) list) number (view element.now) }
{
    match text(element, Key::Name) {
        Some(name) => Label::new(name.as_bytes()).is_none()
            || is_named_earlier(document, list, number, name),
        None => false,
    }
}

/// A name breaks its rule or equals an earlier one of the same part.
pub fn is_name_fault(document: &Value, part: Part, number: usize, element: &Value, key: Key) -> bool
    ensures { IsTrue result ↔ NameFault (view document.now) part number (view element.now) key }
{
    match (part, key) {
        (Part::Top, Key::Name) => is_wrong_title(element),
        (Part::Group, Key::Name) => is_wrong_label(document, Key::Group, number, element),
        (Part::Lane, Key::Name) => is_wrong_label(document, Key::Lane, number, element),
        _ => false,
    }
}

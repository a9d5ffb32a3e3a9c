ghost use Rattle.std.specs.Prelude.{◌↔◌, IsTrue, Any, map};
ghost use Rattle.toml.specs.View.{view};
ghost use Rattle.junction_files.specs.Faults.{NamesGroups, IsRepeated, TwiceFault};

use crate::document::{elements_before, text};
use crate::faults::{Key, Part};
use toml::Value;

/// The two names stand at the two keys, in either order.
fn names_groups(element: &Value, one: Key, other: Key, a: &str, b: &str) -> bool
    ensures { IsTrue result ↔ NamesGroups one other a.now b.now (view element.now) }
{
    let first = text(element, one);
    let second = text(element, other);
    (first == Some(a) && second == Some(b)) || (first == Some(b) && second == Some(a))
}

fn some_names_groups(earlier: &[Value], one: Key, other: Key, a: &str, b: &str) -> bool
    ensures { IsTrue result ↔ Any (NamesGroups one other a.now b.now) (map view earlier.now) }
{
    earlier
        .iter()
        .any(|element| names_groups(element, one, other, a, b))
}

/// The two groups that are named at the keys stand in an earlier element, in either sense.
pub fn is_repeated(earlier: &[Value], element: &Value, one: Key, other: Key) -> bool
    ensures { IsTrue result ↔ IsRepeated one other (map view earlier.now) (view element.now) }
{
    match (text(element, one), text(element, other)) {
        (Some(a), Some(b)) => some_names_groups(earlier, one, other, a, b),
        _ => false,
    }
}

fn is_twice(document: &Value, number: usize, conflict: &Value) -> bool
    ensures { IsTrue result
        ↔ TwiceFault (view document.now) Part.Conflict number (view conflict.now) Key.Whole }
{
    let earlier = elements_before(document, Key::Conflict, number);
    is_repeated(earlier, conflict, Key::A, Key::B)
}

/// The element is a conflict whose pair stands in one before it, in either sense.
pub fn is_twice_fault(
    document: &Value,
    part: Part,
    number: usize,
    element: &Value,
    key: Key,
) -> bool
    ensures { IsTrue result ↔ TwiceFault (view document.now) part number (view element.now) key }
{
    match (part, key) {
        (Part::Conflict, Key::Whole) => is_twice(document, number, element),
        _ => false,
    }
}

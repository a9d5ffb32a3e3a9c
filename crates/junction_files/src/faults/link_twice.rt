ghost use Rattle.std.specs.Prelude.{◌↔◌, IsTrue};
ghost use Rattle.toml.specs.View.{view};
ghost use Rattle.junction_files.specs.Faults.{LinkTwiceFault};

use crate::document::elements_before;
use crate::faults::twice::is_repeated;
use crate::faults::{Key, Part};
use toml::Value;

fn is_linked_twice(document: &Value, number: usize, link: &Value) -> bool
    ensures { IsTrue result
        ↔ LinkTwiceFault (view document.now) Part.Link number (view link.now) Key.Whole }
{
    let earlier = elements_before(document, Key::Link, number);
    is_repeated(earlier, link, Key::Leader, Key::Follower)
}

/// The element is a link whose two groups stand in one before it, in either sense.
pub fn is_link_twice_fault(
    document: &Value,
    part: Part,
    number: usize,
    element: &Value,
    key: Key,
) -> bool
    ensures { IsTrue result
        ↔ LinkTwiceFault (view document.now) part number (view element.now) key }
{
    match (part, key) {
        (Part::Link, Key::Whole) => is_linked_twice(document, number, element),
        _ => false,
    }
}

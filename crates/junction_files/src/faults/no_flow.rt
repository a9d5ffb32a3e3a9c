ghost use Rattle.std.specs.Prelude.{◌≡◌, ◌↔◌, pos, IsTrue, Some};
ghost use Rattle.toml.specs.View.{view};
ghost use Rattle.junction_files.specs.Document.{whole_in};
ghost use Rattle.junction_files.specs.Faults.{NoFlowFault};

use crate::document::{elements, whole};
use crate::faults::{Key, Part};
use toml::Value;

fn has_no_arrival(lane: &Value) -> bool
    ensures { IsTrue result ↔ (whole_in (view lane.now) Key.Arrival ≡ Some (pos 0)) }
{
    whole(lane, Key::Arrival) == Some(0)
}

fn nothing_arrives(document: &Value) -> bool
    ensures { IsTrue result ↔ NoFlowFault Part.Top (view document.now) Key.Lane }
{
    elements(document, Key::Lane).iter().all(has_no_arrival)
}

/// The element is the whole document, and nothing arrives on any of its lanes.
pub fn is_no_flow_fault(part: Part, element: &Value, key: Key) -> bool
    ensures { IsTrue result ↔ NoFlowFault part (view element.now) key }
{
    match (part, key) {
        (Part::Top, Key::Lane) => nothing_arrives(element),
        _ => false,
    }
}

ghost use Rattle.std.specs.Prelude.{◌↔◌, IsTrue};
ghost use Rattle.toml.specs.View.{view};
ghost use Rattle.junction_files.specs.Faults.{MaxGreenFault};

use crate::document::whole;
use crate::faults::{Key, Part};
use toml::Value;

fn is_below_minimum(group: &Value) -> bool
    ensures { IsTrue result ↔ MaxGreenFault Part.Group (view group.now) Key.MaxGreen }
{
    match (whole(group, Key::MaxGreen), whole(group, Key::MinGreen)) {
        (Some(most), Some(least)) => most < least,
        _ => false,
    }
}

/// The element is a group whose maximum green is below its minimum.
pub fn is_max_green_fault(part: Part, element: &Value, key: Key) -> bool
    ensures { IsTrue result ↔ MaxGreenFault part (view element.now) key }
{
    match (part, key) {
        (Part::Group, Key::MaxGreen) => is_below_minimum(element),
        _ => false,
    }
}

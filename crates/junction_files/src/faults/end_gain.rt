ghost use Rattle.std.specs.Prelude.{◌↔◌, IsTrue};
ghost use Rattle.toml.specs.View.{view};
ghost use Rattle.junction_files.specs.Faults.{EndGainFault};

use crate::document::whole;
use crate::faults::{Key, Part};
use toml::Value;

fn gains_too_much(group: &Value) -> bool
    ensures { IsTrue result ↔ EndGainFault Part.Group (view group.now) Key.EndGain }
{
    match (whole(group, Key::EndGain), whole(group, Key::Amber)) {
        (Some(gain), Some(amber)) => amber < gain,
        _ => false,
    }
}

/// The element is a group whose end gain exceeds its amber.
pub fn is_end_gain_fault(part: Part, element: &Value, key: Key) -> bool
    ensures { IsTrue result ↔ EndGainFault part (view element.now) key }
{
    match (part, key) {
        (Part::Group, Key::EndGain) => gains_too_much(element),
        _ => false,
    }
}

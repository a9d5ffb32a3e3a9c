ghost use Rattle.std.specs.Prelude.{◌↔◌, ◌+ℤ◌, ◌≤ℤ◌, IsTrue};
ghost use Rattle.toml.specs.View.{view};
ghost use Rattle.junction_files.specs.Faults.{NoEffectiveFault};

use crate::document::whole;
use crate::faults::{Key, Part};
use toml::Value;

fn is_used_up(green: i64, gain: i64, lost: i64) -> bool
    ensures { IsTrue result ↔ ((green +ℤ gain) ≤ℤ lost) }
{
    i128::from(green) + i128::from(gain) <= i128::from(lost)
}

fn has_no_effective(group: &Value) -> bool
    ensures { IsTrue result ↔ NoEffectiveFault Part.Group (view group.now) Key.StartLost }
{
    let Some(lost) = whole(group, Key::StartLost) else {
        return false;
    };
    match (whole(group, Key::EndGain), whole(group, Key::MinGreen)) {
        (Some(gain), Some(green)) => is_used_up(green, gain, lost),
        _ => false,
    }
}

/// The element is a group whose least green has no effective second.
pub fn is_no_effective_fault(part: Part, element: &Value, key: Key) -> bool
    ensures { IsTrue result ↔ NoEffectiveFault part (view element.now) key }
{
    match (part, key) {
        (Part::Group, Key::StartLost) => has_no_effective(element),
        _ => false,
    }
}

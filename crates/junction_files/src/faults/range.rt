ghost use Rattle.std.specs.Prelude.{◌≡◌, ◌↔◌, IsTrue, Some, pos};
ghost use Rattle.toml.specs.View.{view};
ghost use Rattle.junction_files.specs.Rules.{range_of};
ghost use Rattle.junction_files.specs.Faults.{RangeFault};

use crate::document::whole;
use crate::faults::{Key, Part};
use flow_model::{MOST_FLOW, WHOLE};
use sig_base::{
    LONGEST_AMBER, LONGEST_CYCLE, LONGEST_GREEN, LONGEST_INTERGREEN, LONGEST_MIN_GREEN,
    LONGEST_RED_AMBER, LONGEST_START_LOST,
};
use toml::Value;

/// The numbers from `least` to `greatest`.
fn range(least: u32, greatest: u32) -> Option<(i64, i64)>
    ensures { result ≡ Some (pos least, pos greatest) }
{
    Some((i64::from(least), i64::from(greatest)))
}

/// The least and the greatest value of the whole number at a key. A greatest cycle isn't below the
/// least one.
fn range_of(document: &Value, part: Part, key: Key) -> Option<(i64, i64)>
    ensures { result ≡ range_of (view document.now) part key }
{
    match (part, key) {
        (Part::Top, Key::LeastCycle) => range(1, LONGEST_CYCLE),
        (Part::Top, Key::GreatestCycle) => match whole(document, Key::LeastCycle) {
            Some(least) => Some((least, i64::from(LONGEST_CYCLE))),
            None => None,
        },
        (Part::Group, Key::MinGreen) => range(1, LONGEST_MIN_GREEN),
        (Part::Group, Key::Amber) => range(0, LONGEST_AMBER),
        (Part::Group, Key::RedAmber) => range(0, LONGEST_RED_AMBER),
        (Part::Group, Key::StartLost) => range(0, LONGEST_START_LOST),
        (Part::Group, Key::EndGain) => range(0, LONGEST_AMBER),
        (Part::Group, Key::MaxGreen) => range(1, LONGEST_GREEN),
        (Part::Lane, Key::Arrival) => range(0, MOST_FLOW),
        (Part::Lane, Key::Saturation) => range(1, MOST_FLOW),
        (Part::Lane, Key::Limit) => range(1, WHOLE),
        (Part::Conflict, Key::AToB | Key::BToA) => range(0, LONGEST_INTERGREEN),
        (Part::Link, Key::After) => range(0, LONGEST_CYCLE - 1),
        _ => None,
    }
}

/// The whole number at a key is out of its range.
pub fn is_range_fault(document: &Value, part: Part, element: &Value, key: Key) -> bool
    ensures { IsTrue result ↔ RangeFault (view document.now) part (view element.now) key }
{
    match (range_of(document, part, key), whole(element, key)) {
        (Some((least, greatest)), Some(number)) => number < least || greatest < number,
        _ => false,
    }
}

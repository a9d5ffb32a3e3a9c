ghost use Rattle.std.specs.Prelude.{◌↔◌, IsTrue};
ghost use Rattle.toml.specs.View.{view};
ghost use Rattle.junction_files.specs.Faults.{SelfLinkFault};

use crate::faults::self_conflict::names_one_group;
use crate::faults::{Key, Part};
use toml::Value;

/// The element is a link whose leader is its follower.
pub fn is_self_link_fault(part: Part, element: &Value, key: Key) -> bool
    ensures { IsTrue result ↔ SelfLinkFault part (view element.now) key }
{
    match (part, key) {
        (Part::Link, Key::Whole) => names_one_group(element, Key::Leader, Key::Follower),
        _ => false,
    }
}

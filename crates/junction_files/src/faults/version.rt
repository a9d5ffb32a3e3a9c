ghost use Rattle.std.specs.Prelude.{◌↔◌, IsTrue};
ghost use Rattle.toml.specs.View.{view};
ghost use Rattle.junction_files.specs.Faults.{IsVersion, VersionFault};

use crate::document::whole;
use crate::faults::{Key, Part};
use toml::Value;

fn is_version(version: Option<i64>) -> bool
    ensures { IsTrue result ↔ IsVersion version }
{
    version == Some(1) || version == Some(2)
}

/// The version is neither the whole number 1 nor 2.
pub fn is_version_fault(part: Part, element: &Value, key: Key) -> bool
    ensures { IsTrue result ↔ VersionFault part (view element.now) key }
{
    match (part, key) {
        (Part::Top, Key::Version) => !is_version(whole(element, Key::Version)),
        _ => false,
    }
}

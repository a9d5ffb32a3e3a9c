ghost use Rattle.std.specs.Prelude.{◌≡◌, Err, IfOk, IfErr};
ghost use Rattle.junction_files.specs.FirstFault.{fault_at};
ghost use Rattle.junction_files.specs.Reads.{Spells, IsRefusal, place_of};

use crate::faults::{JunctionFault, Key, Kind, Part, Place, Spot, first_fault};
use crate::reading::build::build;
use junction_model::Junction;
use std::alloc::Global;
use toml::Value;

/// The place of a spot. An index that doesn't fit is given as the greatest one.
fn place(spot: Spot) -> Place
    ensures { result ≡ place_of (fault_at Kind.NotToml spot) }
{
    Place {
        part: spot.part,
        index: u32::try_from(spot.index).unwrap_or(u32::MAX),
        key: spot.key,
    }
}

/// The junction that the bytes of a file spell, or the first fault.
pub fn read(alloc: Global, bytes: &[u8]) -> Result<Junction, JunctionFault>
    ensures junction { IfOk result (Spells bytes.now) }
    ensures fault { IfErr result (IsRefusal bytes.now) }
{
    let document = match toml::table_from_slice(alloc, bytes) {
        Ok(table) => Value::Table(table),
        Err(error) if error.is_memory() => return Err(JunctionFault::Memory),
        Err(_) => return Err(JunctionFault::Refused(
            Kind::NotToml,
            Place {
                part: Part::Top,
                index: 0,
                key: Key::Whole,
            },
        )),
    };
    if let Some((kind, spot)) = first_fault(&document) {
        return Err(JunctionFault::Refused(kind, place(spot)));
    }
    Ok(build(alloc, &document)?)
}

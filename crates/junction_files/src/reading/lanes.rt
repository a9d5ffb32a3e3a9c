ghost use Rattle.std.specs.Prelude.{◌≡◌, map, IfOk};
ghost use Rattle.toml.specs.View.{view};
ghost use Rattle.junction_files.specs.Document.{lanes_in};
ghost use Rattle.junction_files.specs.Meaning.{lane_of};
ghost use Rattle.junction_files.specs.Faultless.{IsFaultless, IsLaneElement};

use crate::document::elements;
use crate::faults::Key;
use crate::reading::fields::{label, number, number_or, reference};
use flow_model::Lane;
use sig_base::NoMemory;
use std::alloc::Global;
use toml::Value;

/// The limit of a lane that gives none, per mille of its saturation.
const DEFAULT_LIMIT: u32 = 900;

fn lane(document: &Value, element: &Value) -> Lane
    requires { IsLaneElement (view document.now) (view element.now) }
    ensures { result ≡ lane_of (view document.now) (view element.now) }
{
    Lane {
        label: label(element),
        group: reference(document, element, Key::Group),
        arrival: number(element, Key::Arrival),
        saturation: number(element, Key::Saturation),
        limit: number_or(element, Key::Limit, DEFAULT_LIMIT),
    }
}

/// The lanes of a document without a fault.
pub fn lanes(alloc: Global, document: &Value) -> Result<Vec<Lane>, NoMemory>
    requires { IsFaultless (view document.now) }
    ensures { IfOk result (λ lanes.
        lanes.items ≡ map (lane_of (view document.now)) (lanes_in (view document.now))) }
{
    let mut lanes = Vec::new(alloc);
    for element in elements(document, Key::Lane) {
        lanes.push(lane(document, element))?;
    }
    Ok(lanes)
}

ghost use Rattle.std.specs.Prelude.{◌↔◌, IsTrue};
ghost use Rattle.toml.specs.View.{view};
ghost use Rattle.junction_files.specs.Faults.{IsWrong};

use crate::document::version_of;
use crate::faults::Kind;
use crate::faults::count::is_count_fault;
use crate::faults::end_gain::is_end_gain_fault;
use crate::faults::link_twice::is_link_twice_fault;
use crate::faults::lonely::is_lonely_fault;
use crate::faults::max_green::is_max_green_fault;
use crate::faults::name::is_name_fault;
use crate::faults::no_effective::is_no_effective_fault;
use crate::faults::no_flow::is_no_flow_fault;
use crate::faults::range::is_range_fault;
use crate::faults::self_conflict::is_self_conflict_fault;
use crate::faults::self_link::is_self_link_fault;
use crate::faults::shape::is_shape_fault;
use crate::faults::short_intergreen::is_short_intergreen_fault;
use crate::faults::spot::Spot;
use crate::faults::twice::is_twice_fault;
use crate::faults::unknown::is_unknown_fault;
use crate::faults::version::is_version_fault;
use toml::Value;

/// Whether a rule of the kind is broken at a spot of the document, whose element this is.
pub fn is_wrong(document: &Value, kind: Kind, spot: Spot, element: &Value) -> bool
    ensures { IsTrue result
        ↔ IsWrong (view document.now) kind spot.part spot.index (view element.now) spot.key }
{
    let Spot { part, index, key } = spot;
    match kind {
        Kind::NotToml => false,
        Kind::Version => is_version_fault(part, element, key),
        Kind::Shape => is_shape_fault(version_of(document), part, element, key),
        Kind::Count => is_count_fault(part, element, key),
        Kind::Range => is_range_fault(document, part, element, key),
        Kind::Name => is_name_fault(document, part, index, element, key),
        Kind::Unknown => is_unknown_fault(document, part, element, key),
        Kind::SelfConflict => is_self_conflict_fault(part, element, key),
        Kind::Twice => is_twice_fault(document, part, index, element, key),
        Kind::Lonely => is_lonely_fault(document, part, element, key),
        Kind::ShortIntergreen => is_short_intergreen_fault(document, part, element, key),
        Kind::EndGain => is_end_gain_fault(part, element, key),
        Kind::NoEffective => is_no_effective_fault(part, element, key),
        Kind::NoFlow => is_no_flow_fault(part, element, key),
        Kind::MaxGreen => is_max_green_fault(part, element, key),
        Kind::SelfLink => is_self_link_fault(part, element, key),
        Kind::LinkTwice => is_link_twice_fault(document, part, index, element, key),
    }
}

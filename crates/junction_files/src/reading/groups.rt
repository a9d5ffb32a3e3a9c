ghost use Rattle.std.specs.Prelude.{◌≡◌, map, IfOk};
ghost use Rattle.toml.specs.View.{view};
ghost use Rattle.junction_files.specs.Document.{groups_in};
ghost use Rattle.junction_files.specs.Meaning.{times_of, group_of};
ghost use Rattle.junction_files.specs.Faultless.{IsFaultless, HasTimes, IsGroupElement};

use crate::document::elements;
use crate::faults::Key;
use crate::reading::fields::{label, number, number_or};
use junction_model::Group;
use sig_base::{GroupTimes, LONGEST_GREEN, NoMemory};
use std::alloc::Global;
use toml::Value;

fn times(element: &Value) -> GroupTimes
    requires { HasTimes (view element.now) }
    ensures { result ≡ times_of (view element.now) }
{
    GroupTimes {
        min_green: number(element, Key::MinGreen),
        amber: number(element, Key::Amber),
        red_amber: number(element, Key::RedAmber),
        start_lost: number(element, Key::StartLost),
        end_gain: number(element, Key::EndGain),
        max_green: number_or(element, Key::MaxGreen, LONGEST_GREEN),
    }
}

fn group(element: &Value) -> Group
    requires { IsGroupElement (view element.now) }
    ensures { result ≡ group_of (view element.now) }
{
    Group {
        label: label(element),
        times: times(element),
    }
}

/// The groups of a document without a fault.
pub fn groups(alloc: Global, document: &Value) -> Result<Vec<Group>, NoMemory>
    requires { IsFaultless (view document.now) }
    ensures { IfOk result (λ groups. groups.items ≡ map group_of (groups_in (view document.now))) }
{
    let mut groups = Vec::new(alloc);
    for element in elements(document, Key::Group) {
        groups.push(group(element))?;
    }
    Ok(groups)
}

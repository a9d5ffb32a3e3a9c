ghost use Rattle.std.specs.Prelude.{IfOk};
ghost use Rattle.toml.specs.View.{view};
ghost use Rattle.junction_model.specs.Rules.{IsJunction};
ghost use Rattle.junction_files.specs.Meaning.{IsJunctionOf};
ghost use Rattle.junction_files.specs.Faultless.{IsFaultless};

use crate::faults::Key;
use crate::reading::conflicts::conflicts;
use crate::reading::fields::{number, title};
use crate::reading::groups::groups;
use crate::reading::lanes::lanes;
use junction_model::Junction;
use sig_base::NoMemory;
use std::alloc::Global;
use toml::Value;

/// The junction that a document without a fault spells.
pub fn build(alloc: Global, document: &Value) -> Result<Junction, NoMemory>
    requires { IsFaultless (view document.now) }
    ensures junction { IfOk result (IsJunctionOf (view document.now)) }
    ensures rules { IfOk result IsJunction }
{
    let groups = groups(alloc, document)?;
    let lanes = lanes(alloc, document)?;
    let conflicts = conflicts(alloc, document, &groups)?;
    Ok(Junction::new(
        title(document),
        number(document, Key::LeastCycle),
        number(document, Key::GreatestCycle),
        groups,
        lanes,
        conflicts,
    ))
}

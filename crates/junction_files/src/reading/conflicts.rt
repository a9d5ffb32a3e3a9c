ghost use Rattle.std.specs.Prelude.{◌≡◌, map, IfOk, length};
ghost use Rattle.toml.specs.View.{view};
ghost use Rattle.junction_files.specs.Document.{groups_in};
ghost use Rattle.junction_files.specs.Meaning.{group_of, entry_of, entries_in, links_of};
ghost use Rattle.junction_files.specs.Faultless.{IsFaultless, IsConflictElement};
ghost use Rattle.conflict_matrix.specs.Conflicts.{matrix_of};
ghost use Rattle.conflict_matrix.specs.Entries.{IsTableOf};
ghost use Rattle.junction_model.specs.Rules.{AreConflicts};

use crate::document::elements;
use crate::faults::Key;
use crate::reading::fields::{number, reference};
use crate::reading::links::linked;
use conflict_matrix::{Conflicts, Entry};
use junction_model::Group;
use sig_base::{GroupTimes, NoMemory};
use std::alloc::Global;
use toml::Value;

fn entry(document: &Value, element: &Value) -> Entry
    requires { IsConflictElement (view document.now) (view element.now) }
    ensures { result ≡ entry_of (view document.now) (view element.now) }
{
    Entry {
        a: reference(document, element, Key::A),
        b: reference(document, element, Key::B),
        a_to_b: number(element, Key::AToB),
        b_to_a: number(element, Key::BToA),
    }
}

fn entries(alloc: Global, document: &Value) -> Result<Vec<Entry>, NoMemory>
    requires { IsFaultless (view document.now) }
    ensures { IfOk result (λ entries. entries.items ≡ entries_in (view document.now)) }
{
    let mut entries = Vec::new(alloc);
    for element in elements(document, Key::Conflict) {
        entries.push(entry(document, element))?;
    }
    Ok(entries)
}

fn times_of_groups(alloc: Global, groups: &[Group]) -> Result<Vec<GroupTimes>, NoMemory>
    ensures { IfOk result (λ times. times.items ≡ map (λ group. group.times) groups.now) }
{
    Ok(groups.iter().map(|group| group.times).collect(alloc)?)
}

/// The table of the conflicts of a document without a fault, which has these groups, without links.
fn unlinked(alloc: Global, document: &Value, groups: &[Group]) -> Result<Conflicts, NoMemory>
    requires faultless { IsFaultless (view document.now) }
    requires groups { groups.now ≡ map group_of (groups_in (view document.now)) }
    ensures table { IfOk result (λ c.
        IsTableOf (length groups.now) (entries_in (view document.now)) (matrix_of c)) }
    ensures rules { IfOk result (λ c. AreConflicts groups.now (matrix_of c)) }
{
    let times = times_of_groups(alloc, groups)?;
    let entries = entries(alloc, document)?;
    match Conflicts::new(&times, &entries) {
        Ok(conflicts) => Ok(conflicts),
        Err(_) => unreachable!(),
    }
}

/// The table of the conflicts and links of a document without a fault, which has these groups.
pub fn conflicts(alloc: Global, document: &Value, groups: &[Group]) -> Result<Conflicts, NoMemory>
    requires faultless { IsFaultless (view document.now) }
    requires groups { groups.now ≡ map group_of (groups_in (view document.now)) }
    ensures table { IfOk result (λ c.
        IsTableOf (length groups.now) (entries_in (view document.now)) (matrix_of c)) }
    ensures links { IfOk result (λ c. (matrix_of c).links ≡ links_of (view document.now)) }
    ensures rules { IfOk result (λ c. AreConflicts groups.now (matrix_of c)) }
{
    let unlinked = unlinked(alloc, document, groups)?;
    let linked = linked(alloc, document, unlinked)?;
    Ok(linked)
}

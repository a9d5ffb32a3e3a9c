ghost use Rattle.std.specs.Prelude.{◌≡◌, length, IfOk};
ghost use Rattle.toml.specs.View.{view};
ghost use Rattle.conflict_matrix.specs.Conflicts.{matrix_of};
ghost use Rattle.conflict_matrix.specs.Matrix.{with_links};
ghost use Rattle.junction_files.specs.Document.{groups_in};
ghost use Rattle.junction_files.specs.Meaning.{link_of, links_of};
ghost use Rattle.junction_files.specs.Faultless.{IsFaultless, IsLinkElement};

use crate::document::elements;
use crate::faults::Key;
use crate::reading::fields::{number, reference};
use conflict_matrix::{Conflicts, Link};
use sig_base::NoMemory;
use std::alloc::Global;
use toml::Value;

fn link(document: &Value, element: &Value) -> Link
    requires { IsLinkElement (view document.now) (view element.now) }
    ensures { result ≡ link_of (view document.now) (view element.now) }
{
    Link {
        leader: reference(document, element, Key::Leader),
        follower: reference(document, element, Key::Follower),
        after: number(element, Key::After),
    }
}

fn links(alloc: Global, document: &Value) -> Result<Vec<Link>, NoMemory>
    requires { IsFaultless (view document.now) }
    ensures { IfOk result (λ links. links.items ≡ links_of (view document.now)) }
{
    let mut links = Vec::new(alloc);
    for element in elements(document, Key::Link) {
        links.push(link(document, element))?;
    }
    Ok(links)
}

/// The same conflicts with the links of a document without a fault.
pub fn linked(alloc: Global, document: &Value, conflicts: Conflicts) -> Result<Conflicts, NoMemory>
    requires faultless { IsFaultless (view document.now) }
    requires groups { (matrix_of conflicts).groups ≡ length (groups_in (view document.now)) }
    ensures { IfOk result (λ c.
        matrix_of c ≡ with_links (matrix_of conflicts) (links_of (view document.now))) }
{
    let links = links(alloc, document)?;
    match conflicts.link(&links) {
        Ok(linked) => Ok(linked),
        Err(_) => unreachable!(),
    }
}

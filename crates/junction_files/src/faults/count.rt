ghost use Rattle.std.specs.Prelude.{◌≡◌, ◌↔◌, IsTrue};
ghost use Rattle.toml.specs.View.{view};
ghost use Rattle.junction_files.specs.Rules.{count_of};
ghost use Rattle.junction_files.specs.Faults.{CountFault};

use crate::document::list;
use crate::faults::{Key, Part};
use conflict_matrix::{MOST_LINKS, MOST_PAIRS};
use sig_base::{MOST_GROUPS, MOST_LANES};
use toml::Value;

/// The least and the greatest number of elements of a list.
fn count_of(key: Key) -> Option<(usize, usize)>
    ensures { result ≡ count_of key }
{
    match key {
        Key::Group => Some((2, MOST_GROUPS)),
        Key::Lane => Some((1, MOST_LANES)),
        Key::Conflict => Some((1, MOST_PAIRS)),
        Key::Link => Some((0, MOST_LINKS)),
        _ => None,
    }
}

fn is_miscounted(document: &Value, key: Key) -> bool
    ensures { IsTrue result ↔ CountFault Part.Top (view document.now) key }
{
    match (count_of(key), list(document, key)) {
        (Some((least, greatest)), Some(elements)) => elements.len() < least
            || greatest < elements.len(),
        _ => false,
    }
}

/// The list at a key of the top has too few or too many elements.
pub fn is_count_fault(part: Part, element: &Value, key: Key) -> bool
    ensures { IsTrue result ↔ CountFault part (view element.now) key }
{
    part == Part::Top && is_miscounted(element, key)
}

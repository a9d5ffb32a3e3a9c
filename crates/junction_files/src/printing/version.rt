ghost use Rattle.std.specs.Prelude.{◌≡◌};
ghost use Rattle.std.specs.List.{list_any};
ghost use Rattle.conflict_matrix.specs.Conflicts.{matrix_of};
ghost use Rattle.junction_files.specs.Printing.{is_bound, has_elements, printed_version, version_number};

use crate::document::Version;
use conflict_matrix::Conflicts;
use junction_model::{Group, Junction};
use sig_base::LONGEST_GREEN;

fn is_bound(group: &Group) -> bool
    ensures { result ≡ is_bound group.now }
{
    group.times.max_green < LONGEST_GREEN
}

fn some_is_bound(groups: &[Group]) -> bool
    ensures { result ≡ list_any is_bound groups.now }
{
    groups.iter().any(is_bound)
}

fn has_links(conflicts: &Conflicts) -> bool
    ensures { result ≡ has_elements (matrix_of conflicts.now).links }
{
    !conflicts.links().is_empty()
}

/// The version in which a junction is printed: the second where some maximum is below the longest green
/// or there is a link.
pub fn printed_version(junction: &Junction) -> Version
    ensures { result ≡ printed_version junction.now }
{
    if some_is_bound(junction.groups()) || has_links(junction.conflicts()) {
        Version::Second
    } else {
        Version::First
    }
}

pub fn version_number(version: Version) -> u32
    ensures { result ≡ version_number version }
{
    match version {
        Version::First => 1,
        Version::Second => 2,
    }
}

ghost use Rattle.std.specs.Prelude.{◌<◌, ◌≤◌, ◌↔◌, IsTrue};
ghost use Rattle.conflict_matrix.specs.Links.{AreLinkable, IsWithin};

use conflict_matrix::{Conflicts, Link};
use junction_files::read;
use std::alloc::Global;
use std::test::Fail;

fn is_within(link: &Link, groups: usize) -> bool
    ensures { IsTrue result ↔ IsWithin groups link.now }
{
    (link.leader as usize) < groups && (link.follower as usize) < groups && link.after <= 299
}

/// Whether the links may be asked for.
pub fn are_linkable(groups: usize, links: &[Link]) -> bool
    ensures { IsTrue result → AreLinkable groups links.now }
{
    links.len() <= 12 && links.iter().all(|link| is_within(link, groups))
}

/// Leader, follower, and the seconds after which the follower starts.
pub fn link(leader: u32, follower: u32, after: u32) -> Link {
    Link {
        leader,
        follower,
        after,
    }
}

/// The conflicts of a junction file.
pub fn conflicts_of(alloc: Global, text: &str) -> Result<Conflicts, Fail> {
    Ok(*read(alloc, text.as_bytes())?.conflicts())
}

/// The conflicts of a junction file, with these links.
pub fn linked(alloc: Global, text: &str, links: &[Link]) -> Result<Conflicts, Fail> {
    let conflicts = conflicts_of(alloc, text)?;
    if !are_linkable(conflicts.groups(), links) {
        return Err(Fail::new("a link out of range"));
    }
    Ok(conflicts.link(links)?)
}

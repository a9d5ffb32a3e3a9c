//! Faults in which groups the links name: a group that is linked to itself, two groups that are
//! linked twice.
ghost use Rattle.std.specs.Prelude.{◌<◌, ◌≤◌, ◌↔◌, length, IsTrue, MatchOption};
ghost use Rattle.sig_base.specs.First.{FirstOrNone};
ghost use Rattle.conflict_matrix.specs.Links.{IsSameLink, SelfLinkAt, RepeatedLinkAt, AreFaultlessLinks, IsFirstLinkFault};

use crate::fault::LinkFault;
use crate::link::Link;

fn first_self_link(links: &[Link]) -> Option<u32>
    requires { length links.now ≤ 12 }
    ensures { FirstOrNone (SelfLinkAt links.now) (length links.now) result }
{
    for (k, link) in links.iter().enumerate() {
        if link.leader == link.follower {
            return Some(k as u32);
        }
    }
    None
}

fn is_same_link(one: &Link, other: &Link) -> bool
    ensures { IsTrue result ↔ IsSameLink one.now other.now }
{
    (one.leader == other.leader && one.follower == other.follower)
        || (one.leader == other.follower && one.follower == other.leader)
}

fn is_repeated_link(links: &[Link], k: usize) -> bool
    requires { k < length links.now }
    ensures { IsTrue result ↔ RepeatedLinkAt links.now k }
{
    for earlier in 0..k {
        if is_same_link(&links[earlier], &links[k]) {
            return true;
        }
    }
    false
}

fn first_repeated_link(links: &[Link]) -> Option<u32>
    requires { length links.now ≤ 12 }
    ensures { FirstOrNone (RepeatedLinkAt links.now) (length links.now) result }
{
    for k in 0..links.len() {
        if is_repeated_link(links, k) {
            return Some(k as u32);
        }
    }
    None
}

/// The first fault of the links; `None` where they have none.
pub fn first_link_fault(links: &[Link]) -> Option<LinkFault>
    requires { length links.now ≤ 12 }
    ensures { MatchOption result (AreFaultlessLinks links.now) (IsFirstLinkFault links.now) }
{
    if let Some(link) = first_self_link(links) {
        return Some(LinkFault::SelfLink(link));
    }
    first_repeated_link(links).map(LinkFault::Twice)
}

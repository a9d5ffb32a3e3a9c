//! Intergreens that are too short for the groups' ambers and red-ambers.
ghost use Rattle.std.specs.Prelude.{◌<◌, ◌↔◌, length, IsTrue, MatchOption, IsSomeAnd, IfSome, slice_get};
ghost use Rattle.sig_base.specs.First.{NoneBelow, IsFirst};
ghost use Rattle.conflict_matrix.specs.Entries.{AreEntries, IsTooShort, HasShortWay, IsFirstWay, ShortAt};

use crate::entry::Entry;
use crate::fault::Way;
use sig_base::GroupTimes;

fn is_too_short(groups: &[GroupTimes], from: u32, to: u32, intergreen: u32) -> bool
    requires from { from < length groups.now }
    requires to { to < length groups.now }
    ensures { IsTrue result ↔ IsTooShort groups.now from to intergreen }
{
    intergreen < groups[from as usize].amber || intergreen < groups[to as usize].red_amber
}

fn short_way(groups: &[GroupTimes], entry: &Entry) -> Option<Way>
    requires a { entry.now.a < length groups.now }
    requires b { entry.now.b < length groups.now }
    ensures { MatchOption result (¬ HasShortWay groups.now entry.now)
        (λ way. IsFirstWay groups.now way entry.now) }
{
    if is_too_short(groups, entry.a, entry.b, entry.a_to_b) {
        Some(Way::AToB)
    } else if is_too_short(groups, entry.b, entry.a, entry.b_to_a) {
        Some(Way::BToA)
    } else {
        None
    }
}

pub fn first_short(groups: &[GroupTimes], entries: &[Entry]) -> Option<(u32, Way)>
    requires { AreEntries groups.now entries.now }
    ensures place { MatchOption result
        (NoneBelow (ShortAt groups.now entries.now) (length entries.now))
        (λ r. IsFirst (ShortAt groups.now entries.now) (length entries.now) r.0) }
    ensures way { IfSome result (λ r.
        IsSomeAnd (slice_get entries.now r.0) (IsFirstWay groups.now r.1)) }
{
    for (k, entry) in entries.iter().enumerate() {
        if let Some(way) = short_way(groups, entry) {
            return Some((k as u32, way));
        }
    }
    None
}

//! Walks that are guessed along tight edges, those whose weight and the sum before it make up the sum. The greatest sum from
//! one group to another is that of a way along tight edges; so with an edge back whose weight and that sum are above 0 it
//! closes the order.
ghost use Rattle.std.specs.Prelude.{◌==◌, ◌<◌, ◌≤◌, ◌≡◌, ◌+◌, IfSome, All, length, slice_index};
ghost use Rattle.std.specs.List.{IsDistinct};

use crate::circuit::from_lowest;
use crate::sums::matrix::{Sums, TwoEdges};
use crate::sums::wave::Wave;
use crate::trail::Trail;
use crate::ways::Ways;
use constraint_cycles::Walk;

/// The trail with one more group, if it isn't on it yet.
fn with_group(trail: &Trail, group: usize, groups: usize) -> Option<Trail>
    requires few { groups ≤ 16 }
    requires once { IsDistinct (λ g h. g == h) trail.now }
    requires within { All (λ g. g < groups) trail.now }
    requires room { length trail.now < 16 }
    ensures once { IfSome result (IsDistinct (λ g h. g == h)) }
    ensures within { IfSome result (All (λ g. g < groups)) }
    ensures long { IfSome result (λ longer. length longer ≡ length trail.now + 1) }
    ensures some { IfSome result (λ longer. 1 ≤ length longer) }
    ensures inside { IfSome result (λ _. group < groups) }
{
    if group >= groups || trail.holds(group as u8) {
        return None;
    }
    let mut longer = *trail;
    longer.push(group as u8);
    Some(longer)
}

/// The way from one group to another along as few tight edges as can be.
fn tight_way(ways: &Ways, sums: &Sums, groups: usize, begin: usize, end: usize) -> Option<Trail>
    requires few { groups ≤ 16 }
    requires begin { begin < groups }
    requires end { end < groups }
    ensures once { IfSome result (IsDistinct (λ g h. g == h)) }
    ensures within { IfSome result (All (λ g. g < groups)) }
    ensures some { IfSome result (λ trail. 1 ≤ length trail) }
{
    let next = Wave::of(ways, &sums.rows()[begin], begin, end).next;
    let mut trail = Trail::of(begin as u8);
    let mut at = begin;
    for step in 1..groups {
        if at == end {
            return Some(trail);
        }
        let group = usize::from(next[at]);
        let Some(longer) = with_group(&trail, group, groups) else {
            return None;
        };
        trail = longer;
        at = group;
    }
    Some(trail)
}

/// The walk along a trail and back.
fn walk_of(trail: Option<Trail>, groups: usize) -> Option<Walk>
    requires few { groups ≤ 16 }
    requires once { IfSome trail (IsDistinct (λ g h. g == h)) }
    requires within { IfSome trail (All (λ g. g < groups)) }
    requires some { IfSome trail (λ t. 1 ≤ length t) }
    ensures once { IfSome result (IsDistinct (λ g h. g == h)) }
    ensures lowest { IfSome result (λ walk. All (λ g. slice_index walk 0 ≤ g) walk) }
    ensures within { IfSome result (All (λ g. g < groups)) }
{
    match trail {
        Some(trail) => Some(from_lowest(trail.groups())),
        None => None,
    }
}

/// A walk along two edges, or along one of them and a tight way back; `None` where none is found.
pub fn guess(ways: &Ways, sums: &Sums, groups: usize, edges: TwoEdges) -> Option<Walk>
    requires few { groups ≤ 16 }
    requires from { edges.from < groups }
    requires to { edges.to < groups }
    ensures once { IfSome result (IsDistinct (λ g h. g == h)) }
    ensures lowest { IfSome result (λ walk. All (λ g. slice_index walk 0 ≤ g) walk) }
    ensures within { IfSome result (All (λ g. g < groups)) }
{
    if edges.forth.wrapping_add(edges.back) > 0 {
        let begun = Trail::of(edges.from as u8);
        return walk_of(with_group(&begun, edges.to, groups), groups);
    }
    if edges.forth.wrapping_add(sums.sum(edges.to, edges.from)) > 0 {
        return walk_of(tight_way(ways, sums, groups, edges.to, edges.from), groups);
    }
    walk_of(tight_way(ways, sums, groups, edges.from, edges.to), groups)
}

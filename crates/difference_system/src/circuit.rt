//! The closed walk that a trail ends with, from its lowest group on.
ghost use Rattle.std.specs.Prelude.{[], ◌≡◌, ◌==◌, ◌<◌, ◌≤◌, ◌++◌, length, take, drop, reverse, nat_lt, slice_index, All};
ghost use Rattle.std.specs.List.{IsFirstBest, IsDistinct};
ghost use Rattle.std.specs.List.Sorted.{IsPermutation};
ghost use Rattle.constraint_cycles.specs.Edge.{Edges};
ghost use Rattle.constraint_cycles.specs.Walk.{IsWalk, sum_of};
ghost use Rattle.difference_system.specs.Trail.{cut};

use crate::trail::Trail;
use constraint_cycles::Walk;

/// The place from which on the groups lead back to the first one.
fn place_of(groups: &[u8], first: u8) -> usize
    ensures within { result ≤ length groups.now }
    ensures cut { drop result groups.now ≡ cut first (reverse groups.now) [] }
{
    let mut place = groups.len();
    while place > 0 {
        place -= 1;
        if first == groups[place] {
            return place;
        }
    }
    place
}

fn lowest_place(groups: &[u8]) -> usize
    requires { 0 < length groups.now }
    ensures { IsFirstBest nat_lt groups.now (length groups.now) result }
{
    let mut lowest = 0;
    for place in 1..groups.len() {
        if groups[place] < groups[lowest] {
            lowest = place;
        }
    }
    lowest
}

/// The groups from a place on, and then those before it, at the beginning of 16 cells.
fn turned(groups: &[u8], place: usize) -> [u8; 16]
    requires few { length groups.now ≤ 16 }
    requires place { place ≤ length groups.now }
    ensures { take (length groups.now) result ≡ drop place groups.now ++ take place groups.now }
{
    let mut cells = [0; 16];
    let (behind, rest) = cells.split_at_mut(groups.len() - place);
    behind.copy_from_slice(&groups[place..]);
    rest[..place].copy_from_slice(&groups[..place]);
    cells
}

/// The walk along the groups, from its lowest group on.
pub fn from_lowest(groups: &[u8]) -> Walk
    requires walk { IsWalk groups.now }
    ensures walk { IsWalk result }
    ensures moved { IsPermutation groups.now result }
    ensures lowest { All (λ g. slice_index result 0 ≤ g) result }
    ensures sum { (edge : Edges) → sum_of edge result ≡ sum_of edge groups.now }
{
    let cells = turned(groups, lowest_place(groups));
    Walk::new(&cells[..groups.len()]).unwrap()
}

/// The closed walk from a group of the trail to the trail's end and back, from its lowest group on.
pub fn circuit(trail: &Trail, first: u8) -> Walk
    requires once { IsDistinct (λ g h. g == h) trail.now }
    requires within { All (λ g. g < 16) trail.now }
    requires several { 2 ≤ length (cut first trail.now []) }
    ensures walk { IsWalk result }
    ensures once { IsDistinct (λ g h. g == h) result }
    ensures lowest { All (λ g. slice_index result 0 ≤ g) result }
    ensures sum { (edge : Edges) → sum_of edge result ≡ sum_of edge (cut first trail.now []) }
{
    let groups = trail.groups();
    from_lowest(&groups[place_of(groups, first)..])
}

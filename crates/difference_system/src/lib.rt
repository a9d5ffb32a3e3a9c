//! The difference system of one order: either the least starts that meet every edge, or a closed walk of
//! edges whose weights add up to more than 0, so that no starts do.
//!
//! The starts are the longest paths from group 0, found by relaxing edges (Bellman 1958, Ford 1956). Each
//! group begins where the edge from group 0 puts it; a pass over the other edges raises each start that an
//! edge asks to be later, and the group's trail, the groups along which its start was found, becomes that
//! of the edge's first group with the group behind it. The first raise of a group on the trail of the edge's
//! first group shows a positive cycle: the trail from there on, with the edge back, is a walk that closes.
//! Until then trails have no group twice, so no start passes 15 of the greatest weights; each pass raises a
//! start or is the last, so the passes end. Every start is asked for by the edges of its trail, so starts that
//! meet all edges are least. A pass relaxes at most 225 edges, and where starts meet all of them 15 passes
//! are enough, since a longest path has at most 15 edges.
//!
//! A search that decides one item after another asks for the starts of each order on its way. A closure keeps
//! a level for each of them: the order, with the greatest sums of weights along its edges from each group to
//! each other. A decision makes one level from the one below in a single pass over its sums, to undo it drops
//! the level, and other needs make every level anew. The least starts are the sums from group 0. Sums name no
//! walk, so where no starts meet the order it is solved from scratch.
#![tactic(auto)]

mod begin;
mod circuit;
mod closure;
mod edge;
mod edge_list;
mod laws;
mod level;
mod relax;
mod solution;
mod solved;
mod state;
mod sums;
mod system;
mod trail;
mod ways;

pub use closure::Closure;
pub use laws::least_starts_law;
pub use solution::solve;
pub use solved::Solved;

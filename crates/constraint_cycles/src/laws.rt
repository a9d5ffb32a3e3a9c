//! What is true of all orders, edges, walks and trees. These functions do nothing: each is the place where its law is
//! proved.
ghost use Rattle.std.specs.Prelude.{ℕ, List};
ghost use Rattle.conflict_matrix.specs.Matrix.{Matrix};
ghost use Rattle.constraint_cycles.specs.OrderLaws.{RootLaw, OpenItemLaw};
ghost use Rattle.constraint_cycles.specs.EdgeLaws.{AskedLaw, GreatestLaw, ApartLaw, DecidedLaw, OtherEdgeLaw};
ghost use Rattle.constraint_cycles.specs.Tree.{DecidesOpen, IsSound};
ghost use Rattle.constraint_cycles.specs.TreeShape.{TreeShapeLaw, VisitLaw, NodeCountLaw, VisitedCountLaw, RootCountLaw};
ghost use Rattle.constraint_cycles.specs.StartsLaws.{AgreeingLaw};
ghost use Rattle.constraint_cycles.specs.WalkLaws.{ExclusionLaw, WalkGroupsLaw, GreaterNeedsLaw, RefinementLaw, DecisionLaw};
ghost use Rattle.constraint_cycles.specs.TreeLaws.{FullOrderLaw, TreeNeedsLaw};

use conflict_matrix::pair_laws;

/// The root order: the pairs with group 0 are its first items, and are fixed; all others are open.
pub fn root_law()
    ensures { RootLaw }
{
    pair_laws();
}

/// An open item isn't fixed.
pub fn order_law()
    ensures { OpenItemLaw }
{}

/// The edges: each has a weight that the pair of its two groups, the length of the cycle or a link asks for, and the
/// greatest one; none leads from a group to itself.
pub fn edge_law()
    ensures asked { AskedLaw }
    ensures greatest { GreatestLaw }
    ensures apart { ApartLaw }
{
    pair_laws();
}

/// Deciding an open item adds what the item asks for, and leaves the edges between all other groups.
pub fn decided_law()
    ensures asked { DecidedLaw }
    ensures others { OtherEdgeLaw }
{}

/// Starts that meet an order exclude every walk that closes it.
pub fn exclusion_law()
    ensures { ExclusionLaw }
{}

/// Whether starts meet an order hangs on the needs and starts of the table's groups alone.
pub fn agreeing_law()
    ensures { AgreeingLaw }
{}

/// A walk that closes an order passes only groups of the table.
pub fn walk_law()
    ensures { WalkGroupsLaw }
{}

/// A walk that closes an order closes it for greater needs, and closes every order that decides more items.
pub fn growth_law()
    ensures needs { GreaterNeedsLaw }
    ensures refinement { RefinementLaw }
    ensures decision { DecisionLaw }
{}

/// A tree that closes a cycle has a walk for every full order, one that decides each item, and closes the cycle for
/// greater needs.
pub fn tree_law()
    ensures full { FullOrderLaw }
    ensures needs { TreeNeedsLaw }
{}

/// A whole tree is a leaf, or a Split and a whole tree for each way of its item.
pub fn tree_shape_law()
    ensures { TreeShapeLaw }
{}

/// What holds of every node of a tree holds of every visit, and the other way round: that a Split decides an open item,
/// and that a node is sound.
pub fn visit_law()
    ensures decided { VisitLaw DecidesOpen }
    ensures sound { (m : Matrix) (needs : List ℕ) (cycle : ℕ) → VisitLaw (IsSound m needs cycle) }
{}

/// A whole tree whose Splits decide open items has at most the nodes of the whole binary tree; where no node is
/// Unvisited, all count as visited.
pub fn node_count_law()
    ensures below { NodeCountLaw }
    ensures visited { VisitedCountLaw }
    ensures root { RootCountLaw }
{}

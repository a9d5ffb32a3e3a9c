//! The visit of the order at hand: what was its unvisited node is Closed or Split.
ghost use Rattle.std.specs.Prelude.{◌≡◌, ◌++◌, ◌∷◌, [], ◌<◌, ◌≤◌, length, IfOk, OnOk, OnErr};
ghost use Rattle.cycle_orders.specs.DueItems.{AreDueItems};
ghost use Rattle.cycle_orders.specs.Place.{IsMoved, ClosesHere};
ghost use Rattle.cycle_orders.specs.Visited.{IsClosing, IsVisit};

use crate::place::Place;
use constraint_cycles::{Node, Tree, Walk};
use sig_base::NoMemory;

/// What a visit made of the order at hand.
#[derive(Clone, Copy)]
pub enum Visited {
    /// A walk closes it.
    Closed,
    /// Its due item is decided in both ways.
    Split,
    /// It decides each item, and these are its least starts.
    Full([u32; 16]),
}

/// Two unvisited nodes at the end, or none of them.
fn push_two(tree: &mut Tree) -> Result<(), NoMemory>
    ensures ok { OnOk result (tree.new ≡ tree.old ++ Node.Unvisited ∷ Node.Unvisited ∷ []) }
    ensures err { OnErr result (tree.new ≡ tree.old) }
{
    tree.push(Node::Unvisited)?;
    match tree.push(Node::Unvisited) {
        Ok(()) => Ok(()),
        Err(fault) => {
            tree.pop();
            Err(fault)
        }
    }
}

/// The first unvisited node carries the walk, which closes the order at hand.
pub fn close(place: &mut Place, tree: &mut Tree, count: usize, walk: Walk)
    requires some { 1 ≤ length place.old.coming }
    requires within { count < length tree.old }
    requires closes { ClosesHere place.old walk }
    ensures { IsClosing place.old place.new tree.old tree.new count }
{
    tree.set(count, Node::Closed(walk));
    place.go_on();
}

/// Visits the order at hand, whose node is the first unvisited one. After want of memory the order stays at hand.
pub fn visit(place: &mut Place, tree: &mut Tree, count: usize) -> Result<Visited, NoMemory>
    requires some { 1 ≤ length place.old.coming }
    requires within { count < length tree.old }
    requires due { AreDueItems place.old.conflicts place.old.items }
    ensures visit { IfOk result (IsVisit place.old place.new tree.old tree.new count) }
    ensures stays { OnErr result (IsMoved place.old place.new place.old.coming) }
    ensures tree { OnErr result (tree.new ≡ tree.old) }
{
    if let Some(walk) = place.enter() {
        close(place, tree, count, walk);
        return Ok(Visited::Closed);
    }
    let Some(item) = place.due() else {
        return Ok(Visited::Full(place.starts()));
    };
    push_two(tree)?;
    tree.set(count, Node::Split(item as u8));
    place.descend();
    Ok(Visited::Split)
}

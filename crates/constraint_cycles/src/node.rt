use crate::walk::Walk;

/// A node of a tree of orders.
#[derive(Clone, Copy, Debug, PartialEq, Eq)]
pub enum Node {
    /// Decides the item of this number: its first subtree has it `First`, its second `Second`.
    Split(u8),
    /// Carries a walk that is to close the node's order.
    Closed(Walk),
    /// Not looked at.
    Unvisited,
}

//! Orders of a junction's items, its conflicting pairs and its links, and what contradicts them. An order
//! says of each pair which group starts first in the cycle and of each link whether it passes the cycle's
//! end, or leaves the item open. It gives edges, the least differences between starts; a closed walk of
//! edges whose weights add up to more than 0 shows that no starts meet the order, and so does a group for
//! which no green is enough. A tree of orders whose leaves all carry such walks shows it of a whole cycle.
#![tactic(auto)]

mod closing;
mod edge;
mod forest;
mod laws;
mod mark;
mod node;
mod order;
mod tree;
mod walk;

pub use closing::{closes, walk_sum};
pub use edge::weight;
pub use forest::Forest;
pub use laws::{
    agreeing_law, decided_law, edge_law, exclusion_law, growth_law, node_count_law, order_law,
    root_law, tree_law, tree_shape_law, visit_law, walk_law,
};
pub use mark::Mark;
pub use node::Node;
pub use order::Order;
pub use tree::Tree;
pub use walk::Walk;

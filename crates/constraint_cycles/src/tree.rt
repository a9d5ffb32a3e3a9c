ghost use Rattle.std.specs.Prelude.{◌≡◌, ◌<◌, ◌↔◌, ◌++◌, ◌∷◌, [], length, IsNone, OnOk, OnErr, option_to_list, slice_set};

use crate::node::Node;
use sig_base::NoMemory;
use std::alloc::Global;
use std::marker::Model;

/// A tree of orders, as the list of its nodes in preorder. Contracts see it as that list.
#[derive(Debug, Drop)]
pub struct Tree {
    nodes: Vec<Node>,
}

impl Model for Tree {
    ghost use Rattle.std.specs.Prelude.{List};
    ghost use Rattle.constraint_cycles.specs.declared.node.Node.{Node};

    ghost Value = { List Node };

    ghost view = { λ t. t.nodes.items };
}

impl Tree {
    /// The empty list of nodes.
    pub fn new(alloc: Global) -> Tree
        ensures { result ≡ [] }
    {
        Tree {
            nodes: Vec::new(alloc),
        }
    }

    /// One more node at the end; after want of memory the list is as before.
    pub fn push(&mut self, node: Node) -> Result<(), NoMemory>
        ensures ok { OnOk result (self.new ≡ self.old ++ node ∷ []) }
        ensures kept { OnErr result (self.new ≡ self.old) }
    {
        self.nodes.push(node)?;
        Ok(())
    }

    /// Takes the last node away; `None` exactly where there is none.
    pub fn pop(&mut self) -> Option<Node>
        ensures none { IsNone result ↔ (self.old ≡ []) }
        ensures value { self.old ≡ self.new ++ option_to_list result }
    {
        self.nodes.pop()
    }

    /// Replaces one node.
    pub fn set(&mut self, place: usize, node: Node)
        requires { place < length self.old }
        ensures { self.new ≡ slice_set self.old place node }
    {
        self.nodes[place] = node;
    }

    /// The nodes, in preorder.
    pub fn items(&self) -> &[Node]
        ensures { result.now ≡ self.now }
    {
        self.nodes.as_slice()
    }
}

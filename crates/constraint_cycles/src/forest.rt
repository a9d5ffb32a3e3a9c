ghost use Rattle.std.specs.Prelude.{◌≡◌, ◌++◌, ◌∷◌, [], OnOk, OnErr};

use crate::tree::Tree;
use sig_base::NoMemory;
use std::alloc::Global;
use std::marker::Model;

/// A list of trees. Contracts see it as the list of the trees' lists of nodes.
#[derive(Debug, Drop)]
pub struct Forest {
    trees: Vec<Tree>,
}

impl Model for Forest {
    ghost use Rattle.std.specs.Prelude.{List};
    ghost use Rattle.constraint_cycles.specs.declared.node.Node.{Node};

    ghost Value = { List (List Node) };

    ghost view = { λ f. f.trees.items };
}

impl Forest {
    /// The forest without trees.
    pub fn new(alloc: Global) -> Forest
        ensures { result ≡ [] }
    {
        Forest {
            trees: Vec::new(alloc),
        }
    }

    /// One more tree at the end; after want of memory the forest is as before.
    pub fn push(&mut self, tree: Tree) -> Result<(), NoMemory>
        ensures ok { OnOk result (self.new ≡ self.old ++ tree ∷ []) }
        ensures kept { OnErr result (self.new ≡ self.old) }
    {
        self.trees.push(tree)?;
        Ok(())
    }

    /// The trees, in the order in which they were pushed.
    pub fn items(&self) -> &[Tree]
        ensures { result.now ≡ self.now }
    {
        self.trees.as_slice()
    }
}

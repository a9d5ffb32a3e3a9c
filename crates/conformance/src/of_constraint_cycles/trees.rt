use constraint_cycles::{Forest, Node, Tree, Walk};
use std::test::Fail;

#[test]
fn nodes_and_trees_that_are_pushed(rt: HostRuntime) -> Result<(), Fail> {
    let closed = Node::Closed(Walk::new(&[0, 2, 1]).ok_or("no walk")?);
    let mut tree = Tree::new(rt.alloc());
    tree.push(Node::Split(2))?;
    tree.push(closed)?;
    let mut forest = Forest::new(rt.alloc());
    forest.push(tree)?;
    assert!(rt; forest.items().len() == 1);
    assert_eq!(rt;
        forest.items()[0].items(),
        [Node::Split(2), closed].as_slice()
    );
    Ok(())
}

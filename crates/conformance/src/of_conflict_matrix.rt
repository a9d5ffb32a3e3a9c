use conflict_matrix::{Link, LinkFault};
use samples::links::{are_linkable, conflicts_of, link, linked};
use samples::{CHAIN, CROSSROADS};
use std::test::Fail;

/// Pairs count by their lower groups, then by their higher ones: six of group 0, five of group 1, and
/// that of 2 and 5.
#[test]
fn pairs_of_a_crossroads(rt: HostRuntime) -> Result<(), Fail> {
    let conflicts = conflicts_of(rt.alloc(), CROSSROADS)?;
    assert!(rt; conflicts.groups() == 8 && conflicts.pair_count() == 15);
    assert_eq!(rt; conflicts.pair(11), (2, 5));
    for (i, j, number, intergreen) in [
        (6, 1, Some(10), Some(8)),
        (1, 6, Some(10), Some(5)),
        (0, 1, None, None),
    ] {
        assert_eq!(rt; conflicts.pair_number(i, j), number, "{i} and {j}");
        assert_eq!(rt; conflicts.intergreen(i, j), intergreen, "{i} and {j}");
    }
    Ok(())
}

/// The links, and their first fault.
type Case<'a> = (&'a [Link], Option<LinkFault>);

/// The first link to itself is told before any second link of a pair, in either sense.
#[test]
fn links_of_a_chain(rt: HostRuntime) -> Result<(), Fail> {
    let conflicts = conflicts_of(rt.alloc(), CHAIN)?;
    let forth = link(0, 2, 10);
    let cases: [Case; 5] = [
        (&[forth, link(1, 0, 0)], None),
        (
            &[link(0, 1, 299), link(2, 2, 0)],
            Some(LinkFault::SelfLink(1)),
        ),
        (&[forth, link(0, 2, 11)], Some(LinkFault::Twice(1))),
        (
            &[forth, link(1, 2, 3), link(2, 0, 10)],
            Some(LinkFault::Twice(2)),
        ),
        (
            &[forth, link(2, 0, 10), link(1, 1, 1)],
            Some(LinkFault::SelfLink(2)),
        ),
    ];
    for (k, (links, fault)) in cases.iter().enumerate() {
        assert!(rt; are_linkable(conflicts.groups(), links));
        assert_eq!(rt; conflicts.link(links).err(), *fault, "case {k}");
    }
    let both = [forth, link(1, 0, 0)];
    let linked = linked(rt.alloc(), CHAIN, &both)?;
    assert_eq!(rt; linked.links(), both.as_slice());
    Ok(())
}

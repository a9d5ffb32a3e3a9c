use super::{CAPACITY, answer};
use constraint_cycles::{Forest, Node, Tree, Walk};
use plan_certificate::{Certificate, Claim, forest_value, plan_value, write};
use plan_model::Plan;
use sig_base::Ratio;
use std::alloc::Global;
use std::test::Fail;

/// The shortest cycle of the pair, and the tree of the one shorter cycle.
const CYCLE: &str = "{\"branches\":[[[0,1]]],\"budget\":200000,\"claim\":\"cycle\",\
    \"least\":[1,1],\"plan\":{\"cycle\":22,\"greens\":[9,9],\"starts\":[0,11]},\"version\":1}";

/// A search of three groups that was stopped at its first node.
const STOPPED: &str = "{\"branches\":[[2,null,null]],\"budget\":1,\"claim\":\"stopped\",\
    \"least\":[1,1],\"plan\":null,\"version\":1}";

fn closed(groups: &[u8]) -> Result<Node, Fail> {
    Ok(Node::Closed(Walk::new(groups).ok_or("no walk")?))
}

fn forest_of(alloc: Global, nodes: &[Node]) -> Result<Forest, Fail> {
    let mut tree = Tree::new(alloc);
    for node in nodes {
        tree.push(*node)?;
    }
    let mut forest = Forest::new(alloc);
    forest.push(tree)?;
    Ok(forest)
}

fn written(alloc: Global, certificate: &Certificate) -> Result<String, Fail> {
    Ok(String::from_utf8(write(alloc, certificate)?)?)
}

#[test]
fn a_capacity_that_is_written(rt: HostRuntime) -> Result<(), Fail> {
    let certificate = Certificate {
        branches: forest_of(rt.alloc(), &[closed(&[0, 1])?])?,
        budget: 200000,
        claim: Claim::Capacity,
        least: Ratio::new(1, 1).ok_or("no ratio")?,
        plan: Plan::new(60, &[0, 30], &[25, 25]),
    };
    assert_eq!(rt; written(rt.alloc(), &certificate)?.as_str(), CAPACITY);
    assert_eq!(rt; certificate.nodes(), 1);
    Ok(())
}

#[test]
fn a_cycle_that_is_written(rt: HostRuntime) -> Result<(), Fail> {
    let certificate = Certificate {
        branches: forest_of(rt.alloc(), &[closed(&[0, 1])?])?,
        budget: 200000,
        claim: Claim::Cycle,
        least: Ratio::new(1, 1).ok_or("no ratio")?,
        plan: Plan::new(22, &[0, 11], &[9, 9]),
    };
    assert_eq!(rt; written(rt.alloc(), &certificate)?.as_str(), CYCLE);
    Ok(())
}

#[test]
fn a_stopped_search_that_is_written(rt: HostRuntime) -> Result<(), Fail> {
    let nodes = [Node::Split(2), Node::Unvisited, Node::Unvisited];
    let certificate = Certificate {
        branches: forest_of(rt.alloc(), &nodes)?,
        budget: 1,
        claim: Claim::Stopped,
        least: Ratio::new(1, 1).ok_or("no ratio")?,
        plan: None,
    };
    assert_eq!(rt; written(rt.alloc(), &certificate)?.as_str(), STOPPED);
    assert_eq!(rt; certificate.nodes(), 1);
    Ok(())
}

/// The branches, the budget, the claim, the least multiplier, the plan and the version.
type Parts<'a> = (&'a str, u64, &'a str, &'a str, &'a str, u32);

fn text_of(alloc: Global, parts: &Parts) -> Result<String, Fail> {
    let (branches, budget, claim, least, plan, version) = parts;
    let first = format!(in alloc; "\"branches\":{branches},\"budget\":{budget}")?;
    let second = format!(in alloc; "\"claim\":\"{claim}\",\"least\":{least}")?;
    let third = format!(in alloc; "\"plan\":{plan},\"version\":{version}")?;
    Ok(format!(in alloc; "{{{first},{second},{third}}}")?)
}

const UNEVEN: &str = "{\"cycle\":60,\"greens\":[26,24],\"starts\":[0,31]}";

const CLASHING: &str = "{\"cycle\":60,\"greens\":[30,22],\"starts\":[1,40]}";

const BOUNDED: &str = "{\"cycle\":60,\"greens\":[20,30],\"starts\":[0,25]}";

const LINKED: &str = "{\"cycle\":40,\"greens\":[7,7,7],\"starts\":[0,23,11]}";

/// The parts of a text, the number of groups, and the number of its Split and Closed nodes.
type Row<'a> = (Parts<'a>, usize, u128);

/// Texts that are written as they were read.
const SAME: [Row; 10] = [
    (("[[[0,1]]]", 200000, "capacity", "[1,1]", UNEVEN, 1), 2, 1),
    (("[]", 1, "cycle", "[1,1]", CLASHING, 1), 2, 0),
    (
        (
            "[[2,[0,1,2],[0,2,1]]]",
            200000,
            "infeasible",
            "[1,1]",
            "null",
            1,
        ),
        3,
        3,
    ),
    (
        ("[[2,[0,1,2]]]", 200000, "infeasible", "[1,1]", "null", 1),
        3,
        2,
    ),
    (
        (
            "[[0,[0,1],[0,1]]]",
            200000,
            "infeasible",
            "[1,1]",
            "null",
            1,
        ),
        3,
        3,
    ),
    (
        (
            "[[2,[0,1,2],[0,2,1],null]]",
            200000,
            "infeasible",
            "[1,1]",
            "null",
            1,
        ),
        3,
        3,
    ),
    (("[[[0]]]", 200000, "capacity", "[1,1]", BOUNDED, 2), 2, 1),
    (
        ("[[120,null,null]]", 1, "stopped", "[3,2]", "null", 2),
        16,
        1,
    ),
    (
        ("[[],[131,[15],null]]", 2, "stopped", "[0,1]", "null", 2),
        16,
        2,
    ),
    (
        (
            "[[null],[null]]",
            u64::MAX,
            "stopped",
            "[999999,1000000]",
            "null",
            1,
        ),
        2,
        0,
    ),
];

#[test]
fn texts_that_are_read_and_written(rt: HostRuntime) -> Result<(), Fail> {
    for (parts, groups, nodes) in SAME.iter() {
        let text = text_of(rt.alloc(), parts)?;
        let certificate = answer(rt.alloc(), text.as_bytes(), *groups)??;
        assert_eq!(rt; certificate.nodes(), *nodes, "{text}");
        assert_eq!(rt; written(rt.alloc(), &certificate)?, text);
    }
    Ok(())
}

/// Texts of version 2 that are written in version 1, since nothing in them needs more.
const FIRST: [Parts; 2] = [
    (
        "[[2,1,[0,1,2],[0,2,1],[0,2]]]",
        1,
        "infeasible",
        "[1,1]",
        "null",
        2,
    ),
    ("[]", 1, "cycle", "[1,1]", LINKED, 2),
];

#[test]
fn texts_that_are_written_in_the_first_version(rt: HostRuntime) -> Result<(), Fail> {
    for (branches, budget, claim, least, plan, version) in FIRST.iter() {
        let read = (*branches, *budget, *claim, *least, *plan, *version);
        let text = text_of(rt.alloc(), &read)?;
        let certificate = answer(rt.alloc(), text.as_bytes(), 3)??;
        let first = (*branches, *budget, *claim, *least, *plan, 1);
        let want = text_of(rt.alloc(), &first)?;
        assert_eq!(rt; written(rt.alloc(), &certificate)?, want);
    }
    Ok(())
}

/// Keys out of order, blanks and line feeds, and repeated keys, of which the last counts.
const LOOSE: [&str; 2] = [
    "{ \"version\": 1, \"plan\": null, \"least\": [1, 1], \"claim\": \"stopped\",\n\
    \"budget\": 1, \"branches\": [[2, null, null]] }\n",
    "{\"budget\":0,\"branches\":{},\"plan\":1,\"branches\":[[2,null,null]],\"budget\":1,\
    \"claim\":\"best\",\"claim\":\"stopped\",\"least\":[1,1],\"plan\":null,\"version\":1}",
];

#[test]
fn texts_that_are_written_in_another_form(rt: HostRuntime) -> Result<(), Fail> {
    for text in LOOSE {
        let certificate = answer(rt.alloc(), text.as_bytes(), 3)??;
        assert_eq!(rt; written(rt.alloc(), &certificate)?.as_str(), STOPPED);
    }
    Ok(())
}

#[test]
fn the_parts_of_a_text(rt: HostRuntime) -> Result<(), Fail> {
    let certificate = answer(rt.alloc(), CAPACITY.as_bytes(), 2)??;
    let plan = certificate.plan.ok_or("no plan")?;
    assert_eq!(rt; certificate.claim, Claim::Capacity);
    assert_eq!(rt; certificate.budget, 200000);
    assert_eq!(rt; Some(certificate.least), Ratio::new(1, 1));
    assert_eq!(rt; Some(plan), Plan::new(60, &[0, 30], &[25, 25]));
    let tree = certificate.branches.items().first().ok_or("no tree")?;
    assert_eq!(rt; tree.items(), [closed(&[0, 1])?].as_slice());
    Ok(())
}

/// A walk keeps its order.
#[test]
fn the_walks_of_a_text(rt: HostRuntime) -> Result<(), Fail> {
    let parts = ("[[2,[0,2,1],[2,0,1]]]", 1, "infeasible", "[1,1]", "null", 1);
    let text = text_of(rt.alloc(), &parts)?;
    let certificate = answer(rt.alloc(), text.as_bytes(), 3)??;
    let nodes = [Node::Split(2), closed(&[0, 2, 1])?, closed(&[2, 0, 1])?];
    let tree = certificate.branches.items().first().ok_or("no tree")?;
    assert_eq!(rt; tree.items(), nodes.as_slice());
    Ok(())
}

#[test]
fn values_of_a_forest_and_a_plan(rt: HostRuntime) -> Result<(), Fail> {
    let nodes = [Node::Split(2), closed(&[0, 1, 2])?, Node::Unvisited];
    let forest = forest_of(rt.alloc(), &nodes)?;
    let value = forest_value(rt.alloc(), &forest)?;
    assert_eq!(rt; value.to_string(rt.alloc())?.as_str(), "[[2,[0,1,2],null]]");
    let plan = Plan::new(22, &[0, 11], &[9, 9]).ok_or("no plan")?;
    let value = plan_value(rt.alloc(), &plan)?;
    assert_eq!(rt;
        value.to_string(rt.alloc())?.as_str(),
        "{\"cycle\":22,\"greens\":[9,9],\"starts\":[0,11]}"
    );
    Ok(())
}

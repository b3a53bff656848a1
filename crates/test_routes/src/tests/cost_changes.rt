//! Changes of the cost of one interface, and graphs that take them.

use super::built::sample_graph;
use area_graph::{CostChange, Edge, Graph, Vertex};
use lsa_codec::{Addr, Lsa, RouterId};
use std::alloc::Global;
use std::test::*;
use test_support::{R1, R2};

/// The router-LSA of 1.1.1.1 in the sample: a link to 2.2.2.2 of cost 10.
const COST_10: &[u8] = &[
    0x00, 0x01, 0x02, 0x01, 1, 1, 1, 1, 1, 1, 1, 1, 0x80, 0, 0, 1, 0xd5, 0x5a, 0, 0x24, 0, 0, 0, 1,
    2, 2, 2, 2, 0x0a, 0, 0, 1, 1, 0, 0, 10,
];

/// The same with a link of cost 20.
const COST_20: &[u8] = &[
    0x00, 0x01, 0x02, 0x01, 1, 1, 1, 1, 1, 1, 1, 1, 0x80, 0, 0, 1, 0x8a, 0x9b, 0, 0x24, 0, 0, 0, 1,
    2, 2, 2, 2, 0x0a, 0, 0, 1, 1, 0, 0, 20,
];

/// The same, and the link leads to 3.3.3.3.
const TO_ANOTHER: &[u8] = &[
    0x00, 0x01, 0x02, 0x01, 1, 1, 1, 1, 1, 1, 1, 1, 0x80, 0, 0, 1, 0xac, 0x75, 0, 0x24, 0, 0, 0, 1,
    3, 3, 3, 3, 0x0a, 0, 0, 1, 1, 0, 0, 20,
];

/// The LSA of bytes.
fn decoded(alloc: Global, bytes: &[u8]) -> Result<Lsa, Fail> {
    Ok(Lsa::decode(alloc, bytes)?.0)
}

/// The change that makes one LSA another.
fn change_of(alloc: Global, before: &[u8], after: &[u8]) -> Result<Option<CostChange>, Fail> {
    let (before, after) = (decoded(alloc, before)?, decoded(alloc, after)?);
    Ok(CostChange::between(&before, &after))
}

/// What a change is of: the router, the vertex, the Link Data and the cost.
type Parts = (RouterId, Vertex, Addr, u16);

fn parts_of(change: CostChange) -> Parts {
    (change.from, change.to, change.link_data, change.cost)
}

/// The change of the link of 1.1.1.1 to 2.2.2.2 that gives it a cost.
fn to_cost(cost: u16) -> Parts {
    let to = Vertex::Router(RouterId(R2));
    (RouterId(R1), to, Addr(0x0a00_0001), cost)
}

/// LSAs before and after, and the cost of the change, where it is one.
const CHANGES: &[(&str, &[u8], &[u8], Option<u16>)] = &[
    ("raised", COST_10, COST_20, Some(20)),
    ("lowered", COST_20, COST_10, Some(10)),
    ("another link", COST_10, TO_ANOTHER, None),
    ("the same LSA", COST_10, COST_10, None),
];

#[test]
fn reports_the_change_of_a_cost(rt: HostRuntime) -> Result<(), Fail> {
    for (name, before, after, cost) in CHANGES {
        let change = change_of(rt.alloc(), before, after)?;
        assert_eq!(rt; change.map(parts_of), cost.map(to_cost), "{name}");
    }
    Ok(())
}

/// The costs of the edges out of a vertex of a graph.
fn costs_of(alloc: Global, graph: &Graph, index: usize) -> Result<Vec<u16>, Fail> {
    if index >= graph.len() {
        return Err(Fail::from("no vertex"));
    }
    Ok(
        graph
            .edges(index)
            .iter()
            .map(|edge: &Edge| edge.cost)
            .collect(alloc)?,
    )
}

/// Whether a graph takes a change, and the costs of the edges out of its first two vertices then.
fn costs_after(
    alloc: Global,
    graph: &mut Graph,
    change: CostChange,
) -> Result<(bool, Vec<u16>), Fail> {
    let is_taken = graph.change_cost(change);
    let mut costs = costs_of(alloc, graph, 0)?;
    costs.extend_from_slice(&costs_of(alloc, graph, 1)?)?;
    Ok((is_taken, costs))
}

/// The same of the graph of the sample.
fn costs_of_sample(alloc: Global, change: CostChange) -> Result<(bool, Vec<u16>), Fail> {
    let mut graph = sample_graph(alloc)?;
    costs_after(alloc, &mut graph, change)
}

/// The change of a cost from 10 to 20, of a link to this vertex.
fn raised(alloc: Global, to: Vertex) -> Result<CostChange, Fail> {
    let change = change_of(alloc, COST_10, COST_20)?.ok_or("a change")?;
    Ok(CostChange { to, ..change })
}

/// Where the link leads, whether the graph takes the change, and its costs then. A graph without
/// the vertex stays.
const RAISED: &[(&str, Vertex, bool, &[u16])] = &[
    ("to 2.2.2.2", Vertex::Router(RouterId(R2)), true, &[20, 10]),
    (
        "to a network that the graph lacks",
        Vertex::Network(Addr(0x0a05_0003)),
        false,
        &[10, 10],
    ),
];

#[test]
fn a_graph_takes_the_change_of_a_cost(rt: HostRuntime) -> Result<(), Fail> {
    for (name, to, is_taken, costs) in RAISED {
        let found = costs_of_sample(rt.alloc(), raised(rt.alloc(), *to)?)?;
        assert_eq!(rt; found.0, *is_taken, "{name}");
        assert_eq!(rt; found.1.as_slice(), *costs, "{name}");
    }
    Ok(())
}

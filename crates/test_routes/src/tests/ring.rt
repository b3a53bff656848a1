//! A ring of 40 routers with ten networks of four neighboring routers each: the tree and the hops
//! of each router, beside those of the plain program, which is first compared with what is known of
//! the ring.

ghost use Rattle.std.specs.Prelude.{◌≡◌, length};

use super::built::graph_of;
use super::plain::{distances_by_rounds, hops_by_rounds};
use area_graph::{Graph, Vertex};
use lsa_codec::{Addr, RouterId};
use next_hops::{Hop, Hops};
use spf::{Meter, Tree};
use std::alloc::Global;
use std::test::*;
use test_support::{LsaList, RouterLink, to_network, to_router};

const ROUTERS: u32 = 40;

const NETWORKS: u32 = 10;

/// A router that names one of the ring, and that none names.
const ALONE: u32 = 0x0909_0909;

/// The costs of the links between routers.
#[derive(Clone, Copy, Debug)]
enum Costs {
    /// So that many ways are equal.
    Equal,
    Uneven,
}

/// The router at a place. The first one follows the last one.
fn router_at(place: u32) -> u32 {
    0x0101_0100 | (place % ROUTERS)
}

/// The network at a place.
fn network_at(place: u32) -> u32 {
    0x0a05_0001 | ((place / 4 % NETWORKS) << 8)
}

/// The costs of the links to the next place and to the one before.
fn costs_at(costs: Costs, place: u32) -> (u16, u16) {
    match costs {
        Costs::Equal => (1, if place % 5 == 0 { 2 } else { 1 }),
        Costs::Uneven => (1 + (place % 3) as u16, 1 + (place % 4) as u16),
    }
}

/// The links of a router to both neighbors.
fn ring_links(alloc: Global, costs: Costs, place: u32) -> Result<Vec<RouterLink>, Fail> {
    let address = 0x0a00_0000 | (place << 8);
    let (on, back) = costs_at(costs, place);
    let next = router_at(place.wrapping_add(1));
    let before = router_at(place.wrapping_add(ROUTERS - 1));
    let mut links = Vec::new(alloc);
    links.push(to_router(next, address | 1, on))?;
    links.push(to_router(before, address | 2, back))?;
    Ok(links)
}

/// Adds a router's link to its network, unless it is the last of the four: that is only named by
/// the network. At each eighth place comes a link to a router that has none back.
fn push_more(links: &mut Vec<RouterLink>, place: u32) -> Result<(), Fail> {
    if place % 4 != 3 {
        links.push(to_network(network_at(place), 0x0a06_0000 | place, 2))?;
    }
    if place % 8 == 0 {
        let across = router_at(place.wrapping_add(20));
        links.push(to_router(across, 0x0a00_0003 | (place << 8), 1))?;
    }
    Ok(())
}

/// Adds two more links to the next router at each tenth place.
fn push_parallel(links: &mut Vec<RouterLink>, place: u32) -> Result<(), Fail> {
    if place % 10 == 0 {
        let next = router_at(place.wrapping_add(1));
        links.push(to_router(next, 0x0a00_0005 | (place << 8), 1))?;
        links.push(to_router(next, 0x0a00_0004 | (place << 8), 1))?;
    }
    Ok(())
}

/// The links of the router at a place.
fn links_at(alloc: Global, costs: Costs, place: u32) -> Result<Vec<RouterLink>, Fail> {
    let mut links = ring_links(alloc, costs, place)?;
    push_more(&mut links, place)?;
    if let Costs::Equal = costs {
        push_parallel(&mut links, place)?;
    }
    Ok(links)
}

/// Adds the routers of the ring.
fn push_routers(alloc: Global, costs: Costs, area: &mut LsaList) -> Result<(), Fail> {
    for place in 0..ROUTERS {
        let links = links_at(alloc, costs, place)?;
        area.router(router_at(place), &links)?;
    }
    Ok(())
}

/// Adds the network of the four routers from a place on.
fn push_network(area: &mut LsaList, place: u32) -> Result<(), Fail> {
    let attached = [
        router_at(place),
        router_at(place.wrapping_add(1)),
        router_at(place.wrapping_add(2)),
        router_at(place.wrapping_add(3)),
    ];
    area.network(network_at(place), router_at(place), &attached)?;
    Ok(())
}

/// Adds the networks.
fn push_networks(area: &mut LsaList) -> Result<(), Fail> {
    for number in 0..NETWORKS {
        push_network(area, number.wrapping_mul(4))?;
    }
    Ok(())
}

/// The dump of the ring and of the router that none names.
fn ring_dump(alloc: Global, costs: Costs) -> Result<Vec<u8>, Fail> {
    let mut area = LsaList::new(alloc);
    push_routers(alloc, costs, &mut area)?;
    area.router(ALONE, &[to_router(router_at(0), 0x0a00_0004, 1)])?;
    push_networks(&mut area)?;
    Ok(area.dump()?)
}

/// The graph of the ring. Its vertices are numbered by place: the routers of the ring, the one that
/// none names, and the networks.
fn ring(alloc: Global, costs: Costs) -> Result<Graph, Fail> {
    graph_of(alloc, &ring_dump(alloc, costs)?)
}

/// The distances in the ring with uneven costs from its first router.
const FROM_FIRST: &[u64] = &[
    0, 1, 2, 5, 6, 8, 8, 9, 11, 13, 13, 15, 18, 19, 20, 23, 24, 26, 26, 27, 29, 31, 31, 29, 28, 28,
    26, 22, 21, 21, 19, 15, 14, 14, 12, 8, 7, 7, 5, 1, 2, 8, 13, 20, 26, 31, 28, 21, 14, 7,
];

/// The distances of the vertices that have one.
fn known_distances(alloc: Global, distances: &[Option<u64>]) -> Result<Vec<u64>, Fail> {
    Ok(distances.iter().copied().flatten().collect(alloc)?)
}

/// The distances from the first router by the plain program, but for the one that is not reached.
fn plain_from_first(alloc: Global) -> Result<Vec<u64>, Fail> {
    let graph = ring(alloc, Costs::Uneven)?;
    known_distances(alloc, &distances_by_rounds(alloc, &graph, 0)?)
}

#[test]
fn plain_distances_are_those_known(rt: HostRuntime) -> Result<(), Fail> {
    assert_eq!(rt; plain_from_first(rt.alloc())?.as_slice(), FROM_FIRST);
    Ok(())
}

/// The hops of the first router to the one at place 21 where ways are equal.
const TO_FARTHEST: &[Hop] = &[
    Hop::Link(Addr(0x0a00_0001)),
    Hop::Link(Addr(0x0a00_0002)),
    Hop::Link(Addr(0x0a00_0004)),
    Hop::Link(Addr(0x0a00_0005)),
    Hop::Gateway(Addr(0x0a06_0000), Addr(0x0a06_0002)),
];

/// The hops of a vertex from another one by the plain program.
fn plain_hops(alloc: Global, graph: &Graph, root: usize) -> Result<Vec<Vec<Hop>>, Fail> {
    let distances = distances_by_rounds(alloc, graph, root)?;
    hops_by_rounds(alloc, graph, root, &distances)
}

/// Whether the vertex with a number has these hops.
fn has_hops(table: &[Vec<Hop>], index: usize, hops: &[Hop]) -> bool {
    match table.get(index) {
        Some(list) => list.as_slice() == hops,
        None => false,
    }
}

/// How many hops the vertices have together.
fn count_hops(table: &[Vec<Hop>]) -> usize {
    table
        .iter()
        .fold(0usize, |sum, hops| sum.wrapping_add(hops.len()))
}

/// How many hops the routers of the ring have together, to all vertices.
fn count_all(alloc: Global, graph: &Graph) -> Result<usize, Fail> {
    let mut sum = 0usize;
    for root in 0..ROUTERS as usize {
        sum = sum.wrapping_add(count_hops(&plain_hops(alloc, graph, root)?));
    }
    Ok(sum)
}

/// Whether the first router has those hops to the one at place 21, and how many hops there are.
fn plain_ways(alloc: Global) -> Result<(bool, usize), Fail> {
    let graph = ring(alloc, Costs::Equal)?;
    let table = plain_hops(alloc, &graph, 0)?;
    Ok((has_hops(&table, 21, TO_FARTHEST), count_all(alloc, &graph)?))
}

#[test]
fn plain_hops_are_those_known(rt: HostRuntime) -> Result<(), Fail> {
    assert_eq!(rt; plain_ways(rt.alloc())?, (true, 2638));
    Ok(())
}

/// The first vertex whose distance or hops are not those of the plain program.
fn first_other(
    graph: &Graph,
    tree: &Tree,
    hops: &Hops,
    distances: &[Option<u64>],
    table: &[Vec<Hop>],
) -> Option<usize>
    requires tree { length tree.now.distances ≡ length graph.now.vertices }
    requires hops { length hops.now ≡ length graph.now.vertices }
{
    for index in 0..graph.len() {
        if distances.get(index).copied() != Some(tree.distance(index)) {
            return Some(index);
        }
        if !has_hops(table, index, hops.of(index)) {
            return Some(index);
        }
    }
    None
}

/// The same of a tree and hops that are built.
fn other_than_plain(
    alloc: Global,
    graph: &Graph,
    router: RouterId,
    distances: &[Option<u64>],
    table: &[Vec<Hop>],
) -> Result<Option<usize>, Fail> {
    let tree = Tree::build(alloc, graph, router, &mut Meter::new())?;
    let hops = Hops::build(alloc, graph, &tree)?;
    Ok(first_other(graph, &tree, &hops, distances, table))
}

/// The same for a router as the root.
fn other_from(alloc: Global, graph: &Graph, router: RouterId) -> Result<Option<usize>, Fail> {
    let root = graph.index_of(Vertex::Router(router)).ok_or("no router")?;
    let distances = distances_by_rounds(alloc, graph, root)?;
    let table = hops_by_rounds(alloc, graph, root, &distances)?;
    other_than_plain(alloc, graph, router, &distances, &table)
}

/// The routers whose trees or hops are not those of the plain program, each with the first vertex
/// where they differ.
fn others(alloc: Global, costs: Costs) -> Result<Vec<(u32, usize)>, Fail> {
    let graph = ring(alloc, costs)?;
    let mut found = Vec::new(alloc);
    for place in 0..=ROUTERS {
        let router = if place < ROUTERS {
            router_at(place)
        } else {
            ALONE
        };
        if let Some(index) = other_from(alloc, &graph, RouterId(router))? {
            found.push((router, index))?;
        }
    }
    Ok(found)
}

#[test]
fn trees_and_hops_are_the_plain_ones(rt: HostRuntime) -> Result<(), Fail> {
    for costs in [Costs::Equal, Costs::Uneven] {
        assert_eq!(rt;
            others(rt.alloc(), costs)?.as_slice(),
            [].as_slice(),
            "{costs:?}"
        );
    }
    Ok(())
}

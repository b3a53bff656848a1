//! Distances and hops worked out plainly (RFC 2328, 16.1 and 16.1.1): by rounds over all edges,
//! until a round changes nothing. They are many times slower than the trees and hops that are
//! compared with them, and share nothing with those but the graph.

use area_graph::{Edge, Graph};
use next_hops::Hop;
use std::alloc::Global;
use std::test::*;

/// The distance of a vertex, if it has one yet.
fn distance_at(distances: &[Option<u64>], index: usize) -> Option<u64> {
    *distances.get(index)?
}

/// The distance of the vertex that an edge leads to, by way of this edge.
fn over(distance: u64, edge: Edge) -> u64 {
    distance.wrapping_add(u64::from(edge.cost))
}

/// Lowers the distance of a vertex to another one, and says whether it was more.
fn lower(distances: &mut [Option<u64>], index: usize, distance: u64) -> bool {
    if distance_at(distances, index).is_some_and(|known| known <= distance) {
        return false;
    }
    match distances.get_mut(index) {
        Some(known) => {
            *known = Some(distance);
            true
        }
        None => false,
    }
}

/// Follows the edges out of a vertex at some distance, and says whether a distance fell.
fn follow(edges: &[Edge], distance: u64, distances: &mut [Option<u64>]) -> bool {
    let mut fell = false;
    for edge in edges {
        if lower(distances, usize::from(edge.to), over(distance, *edge)) {
            fell = true;
        }
    }
    fell
}

/// Follows each edge of a graph once, and says whether a distance fell.
fn follow_all(graph: &Graph, distances: &mut [Option<u64>]) -> bool {
    let mut fell = false;
    for from in 0..graph.len() {
        if let Some(distance) = distance_at(distances, from) {
            if follow(graph.edges(from), distance, distances) {
                fell = true;
            }
        }
    }
    fell
}

/// The distance of each vertex from the one with a number. A way of least cost has fewer edges than
/// the graph has vertices, so that no distance falls in later rounds.
pub(super) fn distances_by_rounds(
    alloc: Global,
    graph: &Graph,
    root: usize,
) -> Result<Vec<Option<u64>>, Fail> {
    let mut distances = vec![in alloc; None; graph.len()]?;
    lower(&mut distances, root, 0);
    for _ in 0..graph.len() {
        if !follow_all(graph, &mut distances) {
            break;
        }
    }
    Ok(distances)
}

/// Whether an edge out of a vertex ends a way of least cost.
fn is_on_least_way(distances: &[Option<u64>], from: usize, edge: Edge) -> bool {
    match distance_at(distances, from) {
        Some(distance) => {
            distance_at(distances, usize::from(edge.to)) == Some(over(distance, edge))
        }
        None => false,
    }
}

/// Adds a hop, and says whether it is new.
fn add(hops: &mut Vec<Hop>, hop: Hop) -> Result<bool, Fail> {
    let is_new = !hops.contains(&hop);
    if is_new {
        hops.push(hop)?;
    }
    Ok(is_new)
}

/// Adds a hop to those of a vertex, and says whether it is new.
fn add_at(table: &mut [Vec<Hop>], index: usize, hop: Hop) -> Result<bool, Fail> {
    match table.get_mut(index) {
        Some(hops) => add(hops, hop),
        None => Ok(false),
    }
}

/// The hop over an edge out of the root: to a network or to a router.
fn first_hop(graph: &Graph, edge: Edge) -> Hop {
    let to = usize::from(edge.to);
    if to < graph.len() && graph.is_network(to) {
        Hop::Attached(edge.link_data)
    } else {
        Hop::Link(edge.link_data)
    }
}

/// The hop that goes on over an edge out of another vertex. On a network of the root the router
/// that the edge leads to is the next hop, with its address there.
fn next_hop(hop: Hop, edge: Edge) -> Hop {
    match hop {
        Hop::Attached(interface) => Hop::Gateway(interface, edge.link_data),
        other => other,
    }
}

/// The hops of a vertex.
fn hops_at(alloc: Global, table: &[Vec<Hop>], index: usize) -> Result<Vec<Hop>, Fail> {
    let mut hops = Vec::new(alloc);
    if let Some(list) = table.get(index) {
        hops.extend_from_slice(list)?;
    }
    Ok(hops)
}

/// Passes hops on over an edge, and says whether one is new there.
fn pass(table: &mut [Vec<Hop>], hops: &[Hop], edge: Edge) -> Result<bool, Fail> {
    let mut is_more = false;
    for hop in hops {
        if add_at(table, usize::from(edge.to), next_hop(*hop, edge))? {
            is_more = true;
        }
    }
    Ok(is_more)
}

/// The graph, and the distances of its vertices from the root.
#[derive(Clone, Copy)]
struct Ways<'a> {
    graph: &'a Graph,
    root: usize,
    distances: &'a [Option<u64>],
}

/// Passes on the hops of a vertex over each edge that ends a way of least cost, and says whether
/// one is new there.
fn pass_from(
    alloc: Global,
    ways: Ways,
    from: usize,
    edges: &[Edge],
    table: &mut [Vec<Hop>],
) -> Result<bool, Fail> {
    let hops = hops_at(alloc, table, from)?;
    let mut is_more = false;
    for edge in edges {
        if is_on_least_way(ways.distances, from, *edge) {
            let is_new = if from == ways.root {
                add_at(table, usize::from(edge.to), first_hop(ways.graph, *edge))?
            } else {
                pass(table, &hops, *edge)?
            };
            if is_new {
                is_more = true;
            }
        }
    }
    Ok(is_more)
}

/// Passes on hops over all edges once, and says whether one is new.
fn pass_all(alloc: Global, ways: Ways, table: &mut [Vec<Hop>]) -> Result<bool, Fail> {
    let mut is_more = false;
    for from in 0..ways.graph.len() {
        if pass_from(alloc, ways, from, ways.graph.edges(from), table)? {
            is_more = true;
        }
    }
    Ok(is_more)
}

/// A list without hops for each vertex.
fn no_hops(alloc: Global, count: usize) -> Result<Vec<Vec<Hop>>, Fail> {
    let mut table = Vec::new(alloc);
    for _ in 0..count {
        table.push(Vec::new(alloc))?;
    }
    Ok(table)
}

/// Sorts the hops of each vertex.
fn sort_each(table: &mut [Vec<Hop>]) {
    for hops in table {
        hops.sort_unstable();
    }
}

/// The hops of each vertex in rising order, at these distances from the vertex with a number.
pub(super) fn hops_by_rounds(
    alloc: Global,
    graph: &Graph,
    root: usize,
    distances: &[Option<u64>],
) -> Result<Vec<Vec<Hop>>, Fail> {
    let ways = Ways {
        graph,
        root,
        distances,
    };
    let mut table = no_hops(alloc, graph.len())?;
    for _ in 0..graph.len() {
        if !pass_all(alloc, ways, &mut table)? {
            break;
        }
    }
    sort_each(&mut table);
    Ok(table)
}

//! Trees of the two small areas.

use super::built::{Network, graph_in, sample_graph, tree_of};
use super::plain::distances_by_rounds;
use area_graph::Graph;
use spf::{Meter, SpfFault, Tree};
use std::alloc::Global;
use std::test::*;
use test_support::{FailingAlloc, R1, R3, R4};

/// The root of a tree, and the vertices that it reaches after it: the first, and the second.
fn turns_of(tree: &Tree) -> (usize, Option<usize>, Option<usize>) {
    (tree.root(), tree.settled(1), tree.settled(2))
}

/// The same of the tree of 1.1.1.1 in the sample.
fn turns_in_sample(alloc: Global) -> Result<(usize, Option<usize>, Option<usize>), Fail> {
    let graph = sample_graph(alloc)?;
    let tree = tree_of(alloc, &graph, R1, &mut Meter::new())?;
    Ok(turns_of(&tree))
}

#[test]
fn reports_vertices_in_order(rt: HostRuntime) -> Result<(), Fail> {
    assert_eq!(rt; turns_in_sample(rt.alloc())?, (0, Some(1), None));
    Ok(())
}

/// A router of which the graph has no vertex.
const ABSENT: u32 = 0x0909_0909;

/// Why the sample has no tree of a router, and how many trees are counted then.
fn missed(alloc: Global, root: u32) -> Result<(Option<SpfFault>, u64), Fail> {
    let graph = sample_graph(alloc)?;
    let mut meter = Meter::new();
    let fault = tree_of(alloc, &graph, root, &mut meter).err();
    Ok((fault, meter.count()))
}

#[test]
fn misses_a_router(rt: HostRuntime) -> Result<(), Fail> {
    assert_eq!(rt; missed(rt.alloc(), ABSENT)?, (Some(SpfFault::NoRouter), 0));
    Ok(())
}

/// Adds the vertices that a tree reaches, in their order: number and distance.
fn push_reached(text: &mut String, tree: &Tree) -> Result<(), Fail> {
    for index in tree.order() {
        let index = usize::from(*index);
        let distance = tree.distance(index);
        write!(text, "{index} {distance:?} ")?;
    }
    Ok(())
}

/// The vertices that the trees of some roots reach, and how many trees are counted.
fn reached_text(alloc: Global, graph: &Graph, roots: &[u32]) -> Result<String, Fail> {
    let mut meter = Meter::new();
    let mut text = String::new(alloc);
    for root in roots {
        let tree = tree_of(alloc, graph, *root, &mut meter)?;
        push_reached(&mut text, &tree)?;
        text.push_str("\n")?;
    }
    let count = meter.count();
    write!(text, "{count} counted")?;
    Ok(text)
}

/// The same in the graph of a network.
fn reached_in(alloc: Global, network: &Network, roots: &[u32]) -> Result<String, Fail> {
    let graph = graph_in(alloc, network)?;
    reached_text(alloc, &graph, roots)
}

/// Networks, roots, and what their trees reach. Of equal distances a network comes before a router.
const REACHED: &[(&str, Network, &[u32], &str)] = &[
    (
        "the sample",
        Network::Sample,
        &[R1],
        "0 Some(0) 1 Some(10) \n1 counted",
    ),
    (
        "three routers",
        Network::OfThree,
        &[R1, R3, R4],
        "0 Some(0) 2 Some(5) 3 Some(10) 1 Some(10) \n\
        1 Some(0) 3 Some(10) 0 Some(10) 2 Some(10) \n\
        2 Some(0) 3 Some(5) 0 Some(5) 1 Some(5) \n\
        3 counted",
    ),
];

#[test]
fn reaches_a_network_before_a_router(rt: HostRuntime) -> Result<(), Fail> {
    for (name, network, roots, expected) in REACHED {
        let found = reached_in(rt.alloc(), network, roots)?;
        assert_eq!(rt; found.as_str(), *expected, "{name}");
    }
    Ok(())
}

/// The distances in the network of three routers from the first one: of its routers, and of its
/// network.
const BY_ROUNDS: &[Option<u64>] = &[Some(0), Some(10), Some(5), Some(10)];

/// The same by the plain program.
fn rounds_of_three(alloc: Global) -> Result<Vec<Option<u64>>, Fail> {
    let graph = graph_in(alloc, &Network::OfThree)?;
    distances_by_rounds(alloc, &graph, 0)
}

#[test]
fn measures_by_rounds(rt: HostRuntime) -> Result<(), Fail> {
    let distances = rounds_of_three(rt.alloc())?;
    assert_eq!(rt; distances.as_slice(), BY_ROUNDS);
    Ok(())
}

/// What is seen of building a tree: the growths that are left before it and after it, why there is
/// none, and how many trees are counted.
type Outcome = (u64, u64, Option<SpfFault>, u64);

/// Builds the tree of 1.1.1.1 in a graph.
fn failing_tree<'a>(failing: &'a FailingAlloc, graph: &Graph<&'a FailingAlloc>) -> Outcome {
    let before = failing.remaining();
    let mut meter = Meter::new();
    let fault = tree_of(failing, graph, R1, &mut meter).err();
    (before, failing.remaining(), fault, meter.count())
}

/// The same in the sample, with this number of growths.
fn failing_sample(alloc: Global, growths: u64) -> Result<Outcome, Fail> {
    let failing = FailingAlloc::new(alloc, growths);
    let graph = sample_graph(&failing)?;
    Ok(failing_tree(&failing, &graph))
}

#[test]
fn counts_where_memory_runs_out(rt: HostRuntime) -> Result<(), Fail> {
    let (before, after, fault, _) = failing_sample(rt.alloc(), u64::MAX)?;
    assert_eq!(rt; fault, None);
    assert!(rt; after < before);
    let needed = u64::MAX.wrapping_sub(before);
    for more in 0..before.wrapping_sub(after) {
        let (_, _, fault, count) = failing_sample(rt.alloc(), needed.wrapping_add(more))?;
        assert_eq!(rt; fault, Some(SpfFault::OutOfMemory), "with {more} growths");
        assert_eq!(rt; count, 1, "with {more} growths");
    }
    Ok(())
}

//! Graphs and trees that tests build. These functions have no clauses, so that the prover knows
//! nothing of what they answer, and the tests are proved soon.

use area_graph::{Graph, GraphFault};
use lsa_codec::{AreaId, RouterId};
use lsdb::Database;
use spf::{Meter, SpfFault, Tree};
use std::alloc::{Allocator, Global};
use std::test::*;
use test_support::{SAMPLE, dump_of_text, network_of_three};

/// A network that tables name.
pub(super) enum Network {
    /// The sample.
    Sample,
    /// The network of three routers.
    OfThree,
    /// That of a text.
    Text(&'static str),
}

/// The graph of area 0.0.0.0.
pub(super) fn graph_of<A: Allocator + Copy>(alloc: A, dump: &[u8]) -> Result<Graph<A>, Fail> {
    let database = Database::load(alloc, dump)?;
    Ok(Graph::build(alloc, &database, AreaId(0))?)
}

/// The bytes of the sample. The function has no clauses, so that the prover knows nothing of them.
fn sample() -> &'static [u8] {
    SAMPLE
}

/// The graph of the sample.
pub(super) fn sample_graph<A: Allocator + Copy>(alloc: A) -> Result<Graph<A>, Fail> {
    graph_of(alloc, sample())
}

/// The graph of a network.
pub(super) fn graph_in(alloc: Global, network: &Network) -> Result<Graph, Fail> {
    match network {
        Network::Sample => sample_graph(alloc),
        Network::OfThree => graph_of(alloc, &network_of_three(alloc)?),
        Network::Text(text) => graph_of(alloc, &dump_of_text(alloc, text)?),
    }
}

/// Why the sample has no graph of an area.
pub(super) fn graph_fault(alloc: Global, area: u32) -> Result<Option<GraphFault>, Fail> {
    let database = Database::load(alloc, sample())?;
    Ok(Graph::build(alloc, &database, AreaId(area)).err())
}

/// The tree of a router.
pub(super) fn tree_of<A: Allocator + Copy>(
    alloc: A,
    graph: &Graph<A>,
    root: u32,
    meter: &mut Meter,
) -> Result<Tree<A>, SpfFault> {
    Tree::build(alloc, graph, RouterId(root), meter)
}

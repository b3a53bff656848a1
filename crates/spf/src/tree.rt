//! The shortest-path tree of one router.

ghost use Rattle.std.specs.Prelude.{◌≡◌, ◌<◌, ◌^◌, length, slice_index_or, slice_get, None, IfOk, IfErr, IfSome, All};
ghost use Rattle.area_graph.specs.declared.vertex.Vertex.TheVariants.{Router};
ghost use Rattle.spf.specs.Distances.{IsTreeOf, FaultMeans, meter_after, tree_of};
ghost use Rattle.spf.specs.steps.Search.{IsSettled};

use crate::dijkstra::settle_all;
use crate::distances::DistanceTable;
use crate::fault::SpfFault;
use crate::meter::Meter;
use area_graph::{Graph, Vertex};
use lsa_codec::RouterId;
use std::alloc::{AllocError, Allocator, Global};
use std::marker::Model;

/// The distance of each vertex of an area's graph from one router, the root, and the vertices that
/// are reached in the order of their distances. Contracts see it as these two lists and the root's
/// number.
///
/// Each distance is below 2^32: a graph has at most 8,192 vertices, and an edge costs less than
/// 2^16. A tree takes six bytes for each vertex.
#[derive(Drop)]
pub struct Tree<A: Allocator = Global> {
    root: usize,
    distances: DistanceTable<A>,
    order: Vec<u16, A>,
}

impl<A: Allocator> Model for Tree<A> {
    ghost use Rattle.spf.specs.Distances.{Distances, AreInRange};
    ghost use Rattle.spf.specs.steps.Table.{settled_in};

    ghost Value = { Distances };

    ghost view = { λ t.
        record { root = t.root; distances = settled_in t.distances; order = t.order.items } };

    ghost invariant = { λ t. AreInRange
        (record { root = t.root; distances = settled_in t.distances; order = t.order.items }) };
}

impl<A: Allocator + Copy> Tree<A> {
    /// The distance of each vertex from a router. The meter rises by one where the router is
    /// there, also where memory runs out.
    ///
    /// # Errors
    ///
    /// [`NoRouter`](SpfFault::NoRouter) exactly where the root is no vertex of the graph, and
    /// [`OutOfMemory`](SpfFault::OutOfMemory).
    pub fn build(
        alloc: A,
        graph: &Graph<A>,
        root: RouterId,
        meter: &mut Meter,
    ) -> Result<Tree<A>, SpfFault>
        ensures whole { IfOk result (λ tree. tree ≡ tree_of graph.now (Router root)) }
        ensures tree { IfOk result (λ tree. IsTreeOf graph.now (Router root) tree) }
        ensures fault { IfErr result (λ fault. FaultMeans graph.now (Router root) fault) }
        ensures meter { meter.new ≡ meter_after result meter.old }
    {
        let Some(root) = graph.index_of(Vertex::Router(root)) else {
            return Err(SpfFault::NoRouter);
        };
        meter.rise();
        Ok(Tree::grow(alloc, graph, root)?)
    }

    /// The tree of the vertex with a number.
    fn grow(alloc: A, graph: &Graph<A>, root: usize) -> Result<Tree<A>, AllocError>
        requires { root < length graph.now.vertices }
        ensures root { IfOk result (λ tree. tree.root ≡ root) }
        ensures settled { IfOk result (λ tree. IsSettled graph.now root tree.distances tree.order) }
    {
        let mut distances = DistanceTable::new(alloc, graph.len())?;
        let mut order = Vec::with_capacity(alloc, graph.len())?;
        settle_all(alloc, graph, root, &mut distances, &mut order)?;
        Ok(Tree {
            root,
            distances,
            order,
        })
    }

    /// The number of the root. It takes no memory.
    pub fn root(&self) -> usize
        ensures { result ≡ self.now.root }
    {
        self.root
    }

    /// The distance of the vertex with a number, and None where no path leads to it. It takes no
    /// memory.
    pub fn distance(&self, index: usize) -> Option<u64>
        requires { index < length self.now.distances }
        ensures value { result ≡ slice_index_or self.now.distances index None }
        ensures small { IfSome result (λ d. d < 2 ^ 32) }
    {
        self.distances.get(index).map(u64::from)
    }

    /// The vertices that are reached, in the order of their distances: at equal distance networks
    /// before routers, and then the lower number first. None from their number on. It takes no
    /// memory.
    pub fn settled(&self, index: usize) -> Option<usize>
        ensures vertex { result ≡ slice_get self.now.order index }
        ensures within { IfSome result (λ i. i < length self.now.distances) }
    {
        self.order.get(index).copied().map(usize::from)
    }

    /// The vertices of [`settled`](Tree::settled) as a slice. It takes no memory.
    pub fn order(&self) -> &[u16]
        ensures order { result.now ≡ self.now.order }
        ensures within { All (λ i. i < length self.now.distances) result.now }
    {
        &self.order
    }
}

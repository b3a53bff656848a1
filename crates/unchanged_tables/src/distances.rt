//! The distances from a router in an area whose tree is kept.

ghost use Rattle.std.specs.Prelude.{◌≡◌, ◌<◌, ◌^◌, IfSome};
ghost use Rattle.unchanged_tables.specs.ByTree.{IsOf, distances_by};

use area_graph::{Graph, Vertex};
use lsa_codec::RouterId;
use routing_table::AreaTrees;
use spf::Tree;
use std::alloc::Allocator;
use std::marker::Model;

/// The distances from a router, by its tree in the graph of an area. Contracts see the graph and
/// the tree.
#[derive(Drop)]
pub(crate) struct DistancesFrom<'a, A: Allocator> {
    graph: &'a Graph<A>,
    tree: &'a Tree<A>,
}

impl<'a, A: Allocator> Model for DistancesFrom<'a, A> {
    ghost use Rattle.unchanged_tables.specs.ByTree.{IsOfRouter, TreeIn};

    ghost Value = { TreeIn };

    ghost view = { λ d. record { graph = d.graph.now; tree = d.tree.now } };

    ghost invariant = { λ d. IsOfRouter (record { graph = d.graph.now; tree = d.tree.now }) };
}

impl<'a, A: Allocator + Copy> DistancesFrom<'a, A> {
    /// The distances from a router whose tree is kept.
    pub(crate) fn of(trees: &'a AreaTrees<A>, router: RouterId) -> Option<DistancesFrom<'a, A>>
        ensures { IfSome result (IsOf trees.now.graph router) }
    {
        let tree = trees.tree(router)?;
        Some(DistancesFrom {
            graph: trees.graph(),
            tree,
        })
    }

    /// The distance of a vertex, and None where the graph lacks the vertex.
    pub(crate) fn to(&self, vertex: Vertex) -> Option<Option<u64>>
        ensures distance { IfSome result (λ distance. distance ≡ distances_by self.now vertex) }
        ensures small { IfSome result (λ distance. IfSome distance (λ d. d < 2 ^ 32)) }
    {
        let index = self.graph.index_of(vertex)?;
        Some(self.tree.distance(index))
    }
}

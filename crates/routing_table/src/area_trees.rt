//! The trees of one area.

ghost use Rattle.std.specs.Prelude.{◌≡◌, ℕ, List, true, false, [], Contains, IfOk, IfSome, OnOk};
ghost use Rattle.std.specs.Bool.{OnFalse, OnTrue};
ghost use Rattle.lsa_codec.specs.declared.address.RouterId.{RouterId as AnyRouter};
ghost use Rattle.lsdb.specs.declared.section.Section.TheVariants.{Area};
ghost use Rattle.lsdb.specs.Lists.{lsas_of};
ghost use Rattle.lsdb.specs.Slots.{lists_of};
ghost use Rattle.area_graph.specs.CostChanges.{AreChanged};
ghost use Rattle.area_graph.specs.Graphs.{AreOfArea};
ghost use Rattle.area_graph.specs.declared.vertex.Vertex.TheVariants.{Router};
ghost use Rattle.area_routes.specs.AreaResults.{area_result};
ghost use Rattle.spf.specs.Distances.{IsTreeOf, counted};
ghost use Rattle.routing_table.specs.AreaTrees.{IsAreaOf, has_tree, missing};
ghost use Rattle.routing_table.specs.Counting.{counted_by, CountsAtMost};

use area_graph::{CostChange, Graph, Vertex};
use area_routes::{AreaResult, StubLinks};
use lsa_codec::{AreaId, RouterId};
use lsdb::Database;
use next_hops::Hops;
use spf::{Meter, SpfFault, Tree};
use std::alloc::{AllocError, Allocator};
use std::collections::BTreeMap;
use std::marker::Model;

/// The shortest-path tree of a router, and the next hops of its vertices.
#[derive(Drop)]
struct RouterTree<A: Allocator> {
    tree: Tree<A>,
    hops: Hops<A>,
}

impl<A: Allocator> Model for RouterTree<A> {
    ghost use Rattle.routing_table.specs.AreaTrees.{RouterTreeValue};

    ghost Value = { RouterTreeValue };

    ghost view = { λ t. record { tree = t.tree; hops = t.hops } };
}

/// The graph of an area, the stub links of its routers, and the trees in the graph that were
/// calculated, by their routers.
#[derive(Drop)]
pub struct AreaTrees<A: Allocator> {
    graph: Graph<A>,
    stubs: StubLinks<A>,
    trees: BTreeMap<RouterId, RouterTree<A>, A>,
}

impl<A: Allocator> Model for AreaTrees<A> {
    ghost use Rattle.routing_table.specs.AreaTrees.{AreaTreesValue, AreTreesIn};

    ghost Value = { AreaTreesValue };

    ghost view = { λ a. record { graph = a.graph; stubs = a.stubs; trees = a.trees.entries } };

    ghost invariant = { λ a. AreTreesIn a.graph a.trees.entries };
}

impl<A: Allocator + Copy> AreaTrees<A> {
    /// A graph with the stub links of its routers, and without trees. It takes no memory.
    pub fn new(alloc: A, graph: Graph<A>, stubs: StubLinks<A>) -> AreaTrees<A>
        ensures { result ≡ record { graph = graph; stubs = stubs; trees = [] } }
    {
        AreaTrees {
            graph,
            stubs,
            trees: BTreeMap::new(alloc),
        }
    }

    /// The graph and the stub links after a change of the cost of an interface, which changes no
    /// stub link, and without trees. `None` where the graph does not take the change, as
    /// [`change_cost`](Graph::change_cost) says. It takes no memory.
    pub fn after_change(self, alloc: A, change: CostChange) -> Option<AreaTrees<A>>
        ensures area { IfSome result (λ new. (lsas others : List (List ℕ)) → AreOfArea others
            → AreChanged change lsas others → IsAreaOf lsas self → IsAreaOf others new) }
        ensures trees { IfSome result (λ new. new.trees ≡ []) }
    {
        let mut graph = self.graph;
        if !graph.change_cost(change) {
            return None;
        }
        Some(AreaTrees::new(alloc, graph, self.stubs))
    }

    /// Calculates the tree of a router that is in the graph, and its next hops, unless they are
    /// there. The meter counts a tree that is calculated.
    pub fn grow(&mut self, alloc: A, router: RouterId, meter: &mut Meter) -> Result<(), AllocError>
        requires { Contains self.old.graph.vertices (Router router) }
        ensures graph { self.new.graph ≡ self.old.graph }
        ensures stubs { self.new.stubs ≡ self.old.stubs }
        ensures keeps { (other : AnyRouter) → has_tree self.old other ≡ true
            → has_tree self.new other ≡ true }
        ensures no_more { (other : AnyRouter) → has_tree self.new other ≡ true
            → has_tree self.old other ≡ false → other ≡ router }
        ensures grown { OnOk result (has_tree self.new router ≡ true) }
        ensures meter { OnOk result (meter.new
            ≡ counted_by (missing (has_tree self.old router)) meter.old) }
        ensures at_most { CountsAtMost (missing (has_tree self.old router)) meter.old meter.new }
    {
        if self.trees.contains_key(&router) {
            return Ok(());
        }
        let tree = tree_of(alloc, &self.graph, router, meter)?;
        let hops = Hops::build(alloc, &self.graph, &tree)?;
        self.trees.insert(router, RouterTree { tree, hops })?;
        Ok(())
    }

    /// Whether a router is in the graph. It takes no memory.
    pub fn has_router(&self, router: RouterId) -> bool
        ensures yes { OnTrue result (Contains self.now.graph.vertices (Router router)) }
        ensures no { OnFalse result (¬ Contains self.now.graph.vertices (Router router)) }
    {
        match self.graph.index_of(Vertex::Router(router)) {
            Some(_) => true,
            None => false,
        }
    }

    /// The graph. It takes no memory.
    pub fn graph(&self) -> &Graph<A>
        ensures { result.now ≡ self.now.graph }
    {
        &self.graph
    }

    /// The tree of a router, if it is there. It takes no memory.
    pub fn tree(&self, router: RouterId) -> Option<&Tree<A>>
        ensures { IfSome result (λ tree. IsTreeOf self.now.graph (Router router) tree.now) }
    {
        let kept = self.trees.get(&router)?;
        Some(&kept.tree)
    }

    /// What the area gives to a router whose tree is there.
    pub fn result_of(
        &self,
        alloc: A,
        database: &Database<A>,
        area: AreaId,
        router: RouterId,
    ) -> Result<AreaResult<A>, AllocError>
        requires area { IsAreaOf (lsas_of (Area area) (lists_of database.now)) self.now }
        requires tree { has_tree self.now router ≡ true }
        ensures { IfOk result (λ given. given
            ≡ area_result area (lsas_of (Area area) (lists_of database.now)) router) }
    {
        let Some(kept) = self.trees.get(&router) else {
            unreachable!()
        };
        AreaResult::build(
            alloc,
            database,
            area,
            &self.graph,
            &kept.tree,
            &kept.hops,
            &self.stubs,
        )
    }
}

/// The tree of a router that is in the graph. The meter counts it.
fn tree_of<A: Allocator + Copy>(
    alloc: A,
    graph: &Graph<A>,
    router: RouterId,
    meter: &mut Meter,
) -> Result<Tree<A>, AllocError>
    requires { Contains graph.now.vertices (Router router) }
    ensures tree { IfOk result (IsTreeOf graph.now (Router router)) }
    ensures meter { meter.new ≡ counted meter.old }
{
    match Tree::build(alloc, graph, router, meter) {
        Ok(tree) => Ok(tree),
        Err(SpfFault::OutOfMemory) => Err(AllocError),
        Err(SpfFault::NoRouter) => unreachable!(),
    }
}

//! An area, seen from a router.

ghost use Rattle.std.specs.Prelude.{◌≡◌, ◌<◌, ◌^◌, true, IfOk, IfSome};
ghost use Rattle.lsdb.specs.declared.section.Section.TheVariants.{Area};
ghost use Rattle.lsdb.specs.Lists.{lsas_of};
ghost use Rattle.lsdb.specs.Slots.{lists_of};
ghost use Rattle.area_graph.specs.Graphs.{IsGraphOf};
ghost use Rattle.area_routes.specs.Attached.{is_attached};
ghost use Rattle.area_candidates.specs.Views.{IsViewed, area_view, distance_in};

use area_graph::{Graph, GraphFault, Vertex};
use area_routes::attached_routers_are_vertices;
use lsa_codec::{AreaId, RouterId};
use lsdb::Database;
use spf::{Meter, SpfFault, Tree};
use std::alloc::{AllocError, Allocator};
use std::marker::Model;

/// An area of a database that a router is attached to, with the graph of the area and the router's
/// tree in it. Contracts see it as the database, the router and the area.
#[derive(Drop)]
pub struct AreaView<'a, A: Allocator> {
    database: &'a Database<A>,
    router: RouterId,
    area: AreaId,
    is_stub: bool,
    graph: Graph<A>,
    tree: Tree<A>,
}

impl<'a, A: Allocator> Model for AreaView<'a, A> {
    ghost use Rattle.lsdb.specs.Slots.{lists_of};
    ghost use Rattle.area_candidates.specs.Views.{AreaViewValue, IsViewed};

    ghost Value = { AreaViewValue };

    ghost view = { λ v. record {
      db = lists_of v.database.now;
      router = v.router;
      area = v.area;
      is_stub = v.is_stub;
    } };

    ghost invariant = { λ v. IsViewed (record {
      db = lists_of v.database.now;
      router = v.router;
      area = v.area;
      is_stub = v.is_stub;
    }) v.graph v.tree };
}

/// The graph of the area with a number.
fn graph_of<A: Allocator + Copy>(
    alloc: A,
    database: &Database<A>,
    area: AreaId,
    router: RouterId,
) -> Result<Graph<A>, AllocError>
    requires { is_attached (lists_of database.now) area router ≡ true }
    ensures { IfOk result (IsGraphOf (lsas_of (Area area) (lists_of database.now))) }
{
    match Graph::build(alloc, database, area) {
        Ok(graph) => Ok(graph),
        Err(GraphFault::OutOfMemory) => Err(AllocError),
        Err(GraphFault::NoArea) => unreachable!(),
    }
}

impl<'a, A: Allocator + Copy> AreaView<'a, A> {
    /// An area that a router is attached to. The meter counts the tree.
    ///
    /// # Errors
    ///
    /// Memory ran out.
    pub(crate) fn of(
        alloc: A,
        database: &'a Database<A>,
        area: AreaId,
        is_stub: bool,
        router: RouterId,
        meter: &mut Meter,
    ) -> Result<AreaView<'a, A>, AllocError>
        requires { is_attached (lists_of database.now) area router ≡ true }
        ensures { IfOk result (λ view. view ≡ area_view (lists_of database.now) router
            (record { id = area.0; is_stub = is_stub })) }
    {
        // An attached router is a vertex of the graph.
        database.assert_valid();
        attached_routers_are_vertices();
        let graph = graph_of(alloc, database, area, router)?;
        let tree = match Tree::build(alloc, &graph, router, meter) {
            Ok(tree) => tree,
            Err(SpfFault::OutOfMemory) => return Err(AllocError),
            Err(SpfFault::NoRouter) => unreachable!(),
        };
        Ok(AreaView {
            database,
            router,
            area,
            is_stub,
            graph,
            tree,
        })
    }

    /// The router.
    pub fn router(&self) -> RouterId
        ensures { result ≡ self.now.router }
    {
        self.router
    }

    /// The database.
    pub fn database(&self) -> &'a Database<A>
        ensures { lists_of result.now ≡ self.now.db }
    {
        self.database
    }

    /// The area.
    pub fn area(&self) -> AreaId
        ensures { result ≡ self.now.area }
    {
        self.area
    }

    /// Whether it is a stub area (RFC 2328, 3.6).
    pub fn is_stub(&self) -> bool
        ensures { result ≡ self.now.is_stub }
    {
        self.is_stub
    }

    /// The graph of the area, and the router's tree in it.
    pub fn graph_and_tree(&self) -> (&Graph<A>, &Tree<A>)
        ensures { IsViewed self.now result.0.now result.1.now }
    {
        (&self.graph, &self.tree)
    }

    /// The distance of a vertex from the router, and `None` where no path leads to it. It takes no
    /// memory.
    pub fn distance(&self, vertex: Vertex) -> Option<u64>
        ensures distance { result ≡ distance_in self.now vertex }
        ensures small { IfSome result (λ d. d < 2 ^ 32) }
    {
        let index = self.graph.index_of(vertex)?;
        self.tree.distance(index)
    }
}

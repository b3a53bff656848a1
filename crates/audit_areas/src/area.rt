//! Areas of a database, each with its graph and its routers.

ghost use Rattle.std.specs.Prelude.{◌≡◌, IfOk};
ghost use Rattle.lsdb.specs.Slots.{lists_of};
ghost use Rattle.area_graph.specs.Area.{used};
ghost use Rattle.area_graph.specs.Graphs.{IsGraphOf};
ghost use Rattle.audit_areas.specs.Areas.{AreEnds, audited_area, audited_areas, edges_in, has_edge, lsas_in, router_lsa_in, routers_in};

use crate::ends::{ends_from, has_edge};
use crate::routers::routers_among;
use area_graph::{Graph, Vertex, VertexLsa, used_lsas};
use interfaces::router_lsa_of;
use link_report::area_ids;
use lsa_codec::{AreaId, RouterId, RouterView};
use lsdb::{Database, Section};
use std::alloc::{AllocError, Allocator};
use std::marker::Model;

/// An area of a database, with its graph and its routers. Contracts see it as the database and the
/// area's ID.
#[derive(Drop)]
pub struct AuditedArea<'a, A: Allocator> {
    database: &'a Database<A>,
    area: AreaId,
    graph: Graph<A>,
    routers: Vec<RouterId, A>,
}

impl<'a, A: Allocator> Model for AuditedArea<'a, A> {
    ghost use Rattle.lsdb.specs.Slots.{lists_of};
    ghost use Rattle.audit_areas.specs.Areas.{AreaValue, audited_area as value_of};
    ghost use Rattle.audit_areas.specs.steps.Graphs.{IsKept};

    ghost Value = { AreaValue };

    ghost view = { λ a. value_of (lists_of a.database.now) a.area };

    ghost invariant = { λ a.
        IsKept (value_of (lists_of a.database.now) a.area) a.graph a.routers.items };
}

impl<'a, A: Allocator + Copy> AuditedArea<'a, A> {
    /// An area of a database. The database has it, so that only memory may be wanting.
    fn of(
        alloc: A,
        database: &'a Database<A>,
        area: AreaId,
    ) -> Result<AuditedArea<'a, A>, AllocError>
        ensures { IfOk result (λ made. made ≡ audited_area (lists_of database.now) area) }
    {
        let Ok(graph) = Graph::build(alloc, database, area) else {
            return Err(AllocError);
        };
        let routers = routers_among(alloc, &graph)?;
        Ok(AuditedArea {
            database,
            area,
            graph,
            routers,
        })
    }

    /// The database.
    pub fn database(&self) -> &'a Database<A>
        ensures { lists_of result.now ≡ self.now.db }
    {
        self.database
    }

    /// The area.
    pub fn area(&self) -> AreaId
        ensures { result ≡ self.now.area }
    {
        self.area
    }

    /// The graph of the area.
    pub fn graph(&self) -> &Graph<A>
        ensures { IsGraphOf (lsas_in self.now) result.now }
    {
        &self.graph
    }

    /// Its LSAs in use, in their order: those of the vertices of the graph.
    ///
    /// # Errors
    ///
    /// Memory ran out.
    pub fn used(&self, alloc: A) -> Result<Vec<VertexLsa<'a, A>, A>, AllocError>
        ensures { IfOk result (λ lsas. lsas.items ≡ used (lsas_in self.now)) }
    {
        used_lsas(alloc, self.database.lsas(Section::Area(self.area)))
    }

    /// The router-LSA of a router in the area, where there is one below MaxAge.
    pub fn router_lsa(&self, router: RouterId) -> Option<RouterView<'a>>
        ensures { result ≡ router_lsa_in self.now router }
    {
        router_lsa_of(self.database, self.area, router)
    }

    /// The routers of the area: those with a router-LSA below MaxAge there, in rising order.
    pub fn routers(&self) -> &[RouterId]
        ensures { result.now ≡ routers_in self.now }
    {
        self.routers.as_slice()
    }

    /// Whether an edge leads out of a vertex.
    pub fn has_edge(&self, vertex: Vertex) -> bool
        ensures { result ≡ has_edge (edges_in self.now) vertex }
    {
        has_edge(&self.graph, vertex)
    }

    /// The vertices to which edges lead out of one: of a router those over its links of types 1
    /// and 2 whose other ends link back, of a transit network the routers that it lists and that
    /// have a link to it (RFC 2328, 16.1).
    ///
    /// # Errors
    ///
    /// Memory ran out.
    pub fn ends(&self, alloc: A, vertex: Vertex) -> Result<Vec<Vertex, A>, AllocError>
        ensures { IfOk result (λ ends. AreEnds (edges_in self.now) vertex ends.items) }
    {
        ends_from(alloc, &self.graph, vertex)
    }
}

/// The areas of a database, in rising order of their IDs.
///
/// # Errors
///
/// Memory ran out.
pub fn audited_areas<'a, A: Allocator + Copy>(
    alloc: A,
    database: &'a Database<A>,
) -> Result<Vec<AuditedArea<'a, A>, A>, AllocError>
    ensures { IfOk result (λ areas. areas.items ≡ audited_areas (lists_of database.now)) }
{
    let ids = area_ids(alloc, database)?;
    let mut areas = Vec::with_capacity(alloc, ids.len())?;
    for area in &ids {
        areas.push(AuditedArea::of(alloc, database, *area)?)?;
    }
    Ok(areas)
}

//! Building the graph of an area.

ghost use Rattle.std.specs.Prelude.{IfOk, IfErr, IsSome};
ghost use Rattle.std.specs.List.{find};
ghost use Rattle.lsdb.specs.declared.section.Section.TheVariants.{Area};
ghost use Rattle.lsdb.specs.Lists.{is_section, lsas_of};
ghost use Rattle.lsdb.specs.Slots.{lists_of};
ghost use Rattle.area_graph.specs.Graphs.{IsGraphOf, FaultMeans, AreOfArea};

use crate::back_links::BackLinks;
use crate::draft::Draft;
use crate::fault::GraphFault;
use crate::graph::Graph;
use crate::links::add_edges;
use crate::naming::naming_rows;
use crate::numbers::vertices;
use crate::used::used_lsas;
use lsa_codec::AreaId;
use lsdb::{Database, Lsas, Section};
use std::alloc::{AllocError, Allocator};

/// The graph of an area with these LSAs.
fn graph_of<A: Allocator + Copy>(alloc: A, lsas: Lsas<'_, A>) -> Result<Graph<A>, AllocError>
    requires { AreOfArea lsas }
    ensures { IfOk result (IsGraphOf lsas.entry) }
{
    let used = used_lsas(alloc, lsas)?;
    let vertices = vertices(alloc, &used)?;
    let naming = naming_rows(alloc, &vertices, &used)?;
    let back_links = BackLinks::new(alloc, naming)?;
    let mut draft = Draft::new(alloc, vertices)?;
    add_edges(&mut draft, &back_links)?;
    draft.into_graph(alloc)
}

impl<A: Allocator + Copy> Graph<A> {
    /// The graph of an area of a database (RFC 2328, 16.1).
    ///
    /// Its vertices are the routers with a live router-LSA in the area and the transit networks
    /// with a live network-LSA, in the order of these LSAs. An LSA is live if its age is below
    /// MaxAge. Of several live network-LSAs with one Link State ID, only the one with the greatest
    /// Advertising Router is used. An edge is there only where the other end links back: over each
    /// point-to-point link between routers and over each link of a router to a transit network, at
    /// the metric of the link, and from the network back to the router at cost 0. Each edge carries
    /// the Link Data of the router's link.
    ///
    /// # Errors
    ///
    /// [`NoArea`](GraphFault::NoArea) exactly where the database lacks the area, and
    /// [`OutOfMemory`](GraphFault::OutOfMemory) where memory ran out.
    pub fn build(alloc: A, database: &Database<A>, area: AreaId) -> Result<Graph<A>, GraphFault>
        ensures graph { IfOk result (IsGraphOf (lsas_of (Area area) (lists_of database.now))) }
        ensures found { IfOk result
            (λ _. IsSome (find (is_section (Area area)) (lists_of database.now))) }
        ensures fault { IfErr result
            (FaultMeans (find (is_section (Area area)) (lists_of database.now))) }
    {
        // Its invariant is needed: its LSAs are accepted, and their keys are distinct.
        database.assert_valid();
        let section = Section::Area(area);
        let Some(_) = database.index_of(section) else {
            return Err(GraphFault::NoArea);
        };
        Ok(graph_of(alloc, database.lsas(section))?)
    }
}

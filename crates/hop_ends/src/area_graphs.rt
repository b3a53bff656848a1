//! The graphs of all areas.

ghost use Rattle.std.specs.Prelude.{◌≡◌, ◌<◌, length, slice_get, Some, IfOk, IfSome};
ghost use Rattle.lsdb.specs.Lists.{AreaHead, areas_of};
ghost use Rattle.lsdb.specs.Slots.{lists_of};
ghost use Rattle.area_graph.specs.Graphs.{IsGraphOf};
ghost use Rattle.routing_table.specs.AreaLsas.{lsas_in};
ghost use Rattle.hop_ends.specs.Owners.{AreAreaGraphs, AreGraphsOf};

use crate::views::views_of;
use area_graph::{Graph, GraphFault};
use lsa_codec::RouterId;
use lsdb::Database;
use route_candidates::RouterView;
use std::alloc::{AllocError, Allocator, Global};
use std::marker::Model;

/// The graphs of all areas of a database (RFC 2328, 16.1), in order of area, beside the database.
/// Contracts see them as the database and this list. Those of some routers whose interfaces have
/// several far ends were looked at before: no clause states of which.
#[derive(Drop)]
pub struct AreaGraphs<'a, A: Allocator = Global> {
    database: &'a Database<A>,
    graphs: Vec<Graph<A>, A>,
    views: Vec<RouterView<'a, A>, A>,
}

impl<'a, A: Allocator> Model for AreaGraphs<'a, A> {
    ghost use Rattle.std.specs.Prelude.{All, ◌≡◌};
    ghost use Rattle.lsdb.specs.Slots.{lists_of};
    ghost use Rattle.hop_ends.specs.Owners.{GraphsValue};

    ghost Value = { GraphsValue };

    ghost view = { λ g. record { db = lists_of g.database.now; graphs = g.graphs.items } };

    ghost invariant = { λ g. All (λ v. v.db ≡ lists_of g.database.now) g.views.items };
}

/// The graph of the area with a number.
fn graph_of<A: Allocator + Copy>(
    alloc: A,
    database: &Database<A>,
    i: usize,
) -> Result<Graph<A>, AllocError>
    requires { i < length (areas_of (lists_of database.now)) }
    ensures { IfOk result (λ graph. (area : AreaHead)
        → slice_get (areas_of (lists_of database.now)) i ≡ Some area
        → IsGraphOf (lsas_in (lists_of database.now) area) graph) }
{
    // For the order of its areas: the section of an area is the one of its name.
    database.assert_valid();
    let (area, _is_stub) = database.area(i);
    match Graph::build(alloc, database, area) {
        Ok(graph) => Ok(graph),
        Err(GraphFault::OutOfMemory) => Err(AllocError),
        Err(GraphFault::NoArea) => unreachable!(),
    }
}

/// The graphs of all areas of a database, in order of area.
fn graphs_of<A: Allocator + Copy>(
    alloc: A,
    database: &Database<A>,
) -> Result<Vec<Graph<A>, A>, AllocError>
    ensures { IfOk result (λ graphs. AreAreaGraphs (lists_of database.now) graphs.items) }
{
    let mut graphs = Vec::new(alloc);
    for i in 0..database.area_count() {
        graphs.push(graph_of(alloc, database, i)?)?;
    }
    Ok(graphs)
}

impl<'a, A: Allocator + Copy> AreaGraphs<'a, A> {
    /// The graphs of the areas of a database.
    ///
    /// # Errors
    ///
    /// Memory ran out.
    pub fn of(alloc: A, database: &'a Database<A>) -> Result<AreaGraphs<'a, A>, AllocError>
        ensures { IfOk result (AreGraphsOf (lists_of database.now)) }
    {
        AreaGraphs::for_routers(alloc, database, &[])
    }

    /// The same where the ways of these routers are asked for again and again: those with an
    /// interface to several neighbors are looked at once, and not for each of their routes.
    ///
    /// # Errors
    ///
    /// Memory ran out.
    pub fn for_routers(
        alloc: A,
        database: &'a Database<A>,
        routers: &[RouterId],
    ) -> Result<AreaGraphs<'a, A>, AllocError>
        ensures { IfOk result (AreGraphsOf (lists_of database.now)) }
    {
        let graphs = graphs_of(alloc, database)?;
        let views = views_of(alloc, database, &graphs, routers)?;
        Ok(AreaGraphs {
            database,
            graphs,
            views,
        })
    }

    /// The database.
    pub(crate) fn database(&self) -> &'a Database<A>
        ensures { lists_of result.now ≡ self.now.db }
    {
        self.database
    }

    /// The graphs in order of area.
    pub(crate) fn as_slice(&self) -> &[Graph<A>]
        ensures { result.now ≡ self.now.graphs }
    {
        self.graphs.as_slice()
    }

    /// What was calculated of a router, if it was.
    pub(crate) fn view_of(&self, router: RouterId) -> Option<&RouterView<'a, A>>
        ensures { IfSome result (λ view. view.now ≡ record { db = self.now.db; router = router }) }
    {
        for view in &self.views {
            if view.router() == router {
                return Some(view);
            }
        }
        None
    }
}

//! What is calculated of routers whose interfaces have several far ends.

ghost use Rattle.std.specs.Prelude.{◌≡◌, All, IfOk, OnOk};
ghost use Rattle.lsdb.specs.Slots.{lists_of};

use area_graph::{Graph, Vertex};
use lsa_codec::{Addr, RouterId};
use lsdb::Database;
use route_candidates::RouterView;
use spf::Meter;
use std::alloc::{AllocError, Allocator};
use std::collections::BTreeSet;

/// Adds the Link Data of the links of a router in one graph, and returns whether two links have the
/// same.
fn add_interfaces<A: Allocator + Copy>(
    seen: &mut BTreeSet<Addr, A>,
    graph: &Graph<A>,
    router: RouterId,
) -> Result<bool, AllocError> {
    let Some(index) = graph.index_of(Vertex::Router(router)) else {
        return Ok(false);
    };
    let mut is_again = false;
    for edge in graph.edges(index) {
        is_again |= !seen.insert(edge.link_data)?;
    }
    Ok(is_again)
}

/// Whether two links of a router have the same Link Data. No clause states it: what is not
/// calculated before is calculated where it is asked for.
fn has_shared_interface<A: Allocator + Copy>(
    alloc: A,
    graphs: &[Graph<A>],
    router: RouterId,
) -> Result<bool, AllocError> {
    let mut seen = BTreeSet::new(alloc);
    let mut is_again = false;
    for graph in graphs {
        is_again |= add_interfaces(&mut seen, graph, router)?;
    }
    Ok(is_again)
}

/// Adds what is calculated of a router, if two of its links have the same Link Data.
fn push_view<'a, A: Allocator + Copy>(
    alloc: A,
    database: &'a Database<A>,
    graphs: &[Graph<A>],
    router: RouterId,
    views: &mut Vec<RouterView<'a, A>, A>,
) -> Result<(), AllocError>
    ensures { OnOk result (All (λ v. v.db ≡ lists_of database.now) views.old.items
        → All (λ v. v.db ≡ lists_of database.now) views.new.items) }
{
    if has_shared_interface(alloc, graphs, router)? {
        views.push(RouterView::of(alloc, database, router, &mut Meter::new())?)?;
    }
    Ok(())
}

/// What is calculated of those of some routers of which two links have the same Link Data, in their
/// order.
///
/// # Errors
///
/// Memory ran out.
pub(crate) fn views_of<'a, A: Allocator + Copy>(
    alloc: A,
    database: &'a Database<A>,
    graphs: &[Graph<A>],
    routers: &[RouterId],
) -> Result<Vec<RouterView<'a, A>, A>, AllocError>
    ensures { IfOk result (λ views. All (λ v. v.db ≡ lists_of database.now) views.items) }
{
    let mut views = Vec::new(alloc);
    for router in routers {
        push_view(alloc, database, graphs, *router, &mut views)?;
    }
    Ok(views)
}

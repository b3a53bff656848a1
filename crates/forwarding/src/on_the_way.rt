//! The routers on the way of packets.

ghost use Rattle.std.specs.Prelude.{◌≡◌, ◌+◌, true, length, IfOk, OnOk};
ghost use Rattle.std.specs.Option.{option_copied};
ghost use Rattle.lsdb.specs.Slots.{lists_of};
ghost use Rattle.routing_table.specs.Routers.{attached_routers};
ghost use Rattle.forwarding.specs.Graphs.{IsForwardingFrom, graph_over, step_at};
ghost use Rattle.hop_ends.specs.Owners.{AreGraphsOf};
ghost use Rattle.forwarding.specs.steps.Bases.{IsBasisOf};
ghost use Rattle.forwarding.specs.steps.OnTheWay.{IsFirstMissing, IsPart, is_among, is_missing};
ghost use Rattle.std.specs.Prelude.{None};
ghost use Rattle.std.specs.List.Sorted.{IsStrictlySortedBy};
ghost use Rattle.lsa_codec.specs.Order.{router_cmp};

use crate::forwarding::{Forwarding, step_of};
use crate::graph::ForwardingGraph;
use crate::router_routes::RouterRoutes;
use crate::table_basis::TableBasis;
use hop_ends::AreaGraphs;
use lsa_codec::{Addr, RouterId};
use lsdb::Database;
use routing_table::routers;
use spf::Meter;
use std::alloc::{AllocError, Allocator};

/// Whether a router is one of some, which are in rising order.
fn is_among(routers: &[RouterId], router: RouterId) -> bool
    requires { IsStrictlySortedBy router_cmp routers.now }
    ensures { result ≡ is_among routers.now router }
{
    routers.binary_search(&router).is_ok()
}

/// Whether a router is attached, and not in the graph.
fn is_missing<A: Allocator + Copy>(
    attached: &[RouterId],
    graph: &ForwardingGraph<A>,
    router: RouterId,
) -> bool
    requires { IsStrictlySortedBy router_cmp attached.now }
    ensures { result ≡ is_missing attached.now graph.now router }
{
    graph.step(router).is_none() && is_among(attached, router)
}

/// The first router that walks from a router reach, is attached, and is not in the graph yet.
fn first_missing<A: Allocator + Copy>(
    alloc: A,
    attached: &[RouterId],
    graph: &ForwardingGraph<A>,
    start: RouterId,
) -> Result<Option<RouterId>, AllocError>
    requires { IsStrictlySortedBy router_cmp attached.now }
    ensures { IfOk result (IsFirstMissing attached.now graph.now start) }
{
    let reached = graph.reached(alloc, start)?;
    for router in &reached {
        if is_missing(attached, graph, *router) {
            return Ok(Some(*router));
        }
    }
    Ok(None)
}

/// Adds an attached router, which is not among them, to some routers and to their graph.
fn add<A: Allocator + Copy>(
    alloc: A,
    database: &Database<A>,
    graphs: &AreaGraphs<'_, A>,
    address: Addr,
    router: RouterId,
    basis: &mut TableBasis<A>,
    routers: &mut Vec<RouterRoutes<A>, A>,
    graph: &mut ForwardingGraph<A>,
    meter: &mut Meter,
) -> Result<(), AllocError>
    requires graphs { AreGraphsOf (lists_of database.now) graphs.now }
    requires attached { is_among (attached_routers (lists_of database.now)) router ≡ true }
    requires basis { IsBasisOf (lists_of database.now) basis.old }
    requires missing { step_at graph.now router ≡ None }
    requires part { IsPart (lists_of database.now) address routers.now.items graph.now }
    ensures part { OnOk result
        (IsPart (lists_of database.now) address routers.new.items graph.new) }
    ensures basis { IsBasisOf (lists_of database.now) basis.new }
    ensures more { OnOk result (length routers.new.items ≡ length routers.old.items + 1) }
{
    let routes = RouterRoutes::over(alloc, database, router, basis, meter)?;
    let step = step_of(alloc, graphs, &routes, address)?;
    match graph
        .steps
        .binary_search_by_key(&router, |other| other.router)
    {
        Ok(_index) => unreachable!(),
        Err(place) => {
            routers.insert(place, routes)?;
            graph.steps.insert(place, step)?;
        }
    }
    Ok(())
}

impl<'a, A: Allocator + Copy> Forwarding<'a, A> {
    /// What is needed for packets from a router to an address alone, and the forwarding graph of
    /// the address of the routers that these pass. The meter counts a tree for each of these
    /// routers and area that it is attached to.
    ///
    /// # Errors
    ///
    /// Memory ran out.
    pub fn from_router(
        alloc: A,
        database: &'a Database<A>,
        start: RouterId,
        address: Addr,
        meter: &mut Meter,
    ) -> Result<(Forwarding<'a, A>, ForwardingGraph<A>), AllocError>
        ensures forwarding { IfOk result
            (λ found. IsForwardingFrom (lists_of database.now) start address found.0) }
        ensures graph { IfOk result
            (λ found. found.1 ≡ graph_over (lists_of database.now) address found.0.routers) }
    {
        let attached = routers(alloc, database)?;
        let graphs = AreaGraphs::of(alloc, database)?;
        let mut basis = TableBasis::new(alloc);
        let mut routers = Vec::new(alloc);
        let mut graph = ForwardingGraph::from_sorted(Vec::new(alloc));
        'routers: while let Some(router) = first_missing(alloc, &attached, &graph, start)? {
            add(
                alloc,
                database,
                &graphs,
                address,
                router,
                &mut basis,
                &mut routers,
                &mut graph,
                meter,
            )?;
        }
        Ok((Forwarding { graphs, routers }, graph))
    }
}

//! What the forwarding graphs of a database come from.

ghost use Rattle.std.specs.Prelude.{◌≡◌, map, IfOk};
ghost use Rattle.std.specs.List.Sorted.{IsStrictlySortedBy};
ghost use Rattle.std.specs.Option.{option_copied};
ghost use Rattle.lsa_codec.specs.Order.{router_cmp};
ghost use Rattle.lsdb.specs.Lists.{Lists};
ghost use Rattle.lsdb.specs.Slots.{lists_of};
ghost use Rattle.forwarding.specs.Graphs.{IsForwardingOf, graph_of, routes_at, step_of};
ghost use Rattle.hop_ends.specs.Owners.{AreGraphsOf};

use crate::graph::{ForwardingGraph, RouterStep};
use crate::router_routes::RouterRoutes;
use crate::table_basis::TableBasis;
use hop_ends::AreaGraphs;
use lsa_codec::{Addr, RouterId};
use lsdb::Database;
use routing_table::routers;
use spf::Meter;
use std::alloc::{AllocError, Allocator, Global};
use std::marker::Model;

/// What the forwarding graphs of a database come from: the graphs of its areas, and of each
/// attached router its table and the external prefixes that it announces.
#[derive(Drop)]
pub struct Forwarding<'a, A: Allocator = Global> {
    pub(crate) graphs: AreaGraphs<'a, A>,
    pub(crate) routers: Vec<RouterRoutes<A>, A>,
}

impl<'a, A: Allocator> Model for Forwarding<'a, A> {
    ghost use Rattle.std.specs.Prelude.{map};
    ghost use Rattle.std.specs.List.Sorted.{IsStrictlySortedBy};
    ghost use Rattle.lsa_codec.specs.Order.{router_cmp};
    ghost use Rattle.forwarding.specs.Graphs.{ForwardingValue};

    ghost Value = { ForwardingValue };

    ghost view = { λ f. record { graphs = f.graphs; routers = f.routers.items } };

    ghost invariant = { λ f. IsStrictlySortedBy router_cmp (map (λ r. r.router) f.routers.items) };
}

/// A router and its match of an address.
pub(crate) fn step_of<A: Allocator + Copy>(
    alloc: A,
    graphs: &AreaGraphs<'_, A>,
    routes: &RouterRoutes<A>,
    address: Addr,
) -> Result<RouterStep<A>, AllocError>
    ensures router { IfOk result (λ step. step.router ≡ routes.now.router) }
    ensures step { IfOk result (λ step. (db : Lists) → AreGraphsOf db graphs.now
        → step ≡ step_of db address routes.now) }
{
    let matched = routes.match_of(alloc, graphs, address)?;
    Ok(RouterStep {
        router: routes.router(),
        matched,
    })
}

impl<'a, A: Allocator + Copy> Forwarding<'a, A> {
    /// The graphs, tables and external prefixes of a database. The meter counts a tree for each
    /// router and area that it is attached to.
    ///
    /// # Errors
    ///
    /// Memory ran out.
    pub fn of(
        alloc: A,
        database: &'a Database<A>,
        meter: &mut Meter,
    ) -> Result<Forwarding<'a, A>, AllocError>
        ensures { IfOk result (IsForwardingOf (lists_of database.now)) }
    {
        let attached = routers(alloc, database)?;
        let graphs = AreaGraphs::for_routers(alloc, database, &attached)?;
        let mut basis = TableBasis::new(alloc);
        let mut routers = Vec::new(alloc);
        for router in &attached {
            routers.push(RouterRoutes::over(alloc, database, *router, &mut basis, meter)?)?;
        }
        Ok(Forwarding { graphs, routers })
    }

    /// The graphs of the areas.
    pub fn graphs(&self) -> &AreaGraphs<'a, A>
        ensures { result.now ≡ self.now.graphs }
    {
        &self.graphs
    }

    /// The attached routers in rising order, each with what its entries come from.
    pub fn routers(&self) -> &[RouterRoutes<A>]
        ensures routers { result.now ≡ self.now.routers }
        ensures sorted { IsStrictlySortedBy router_cmp (map (λ r. r.router) result.now) }
    {
        self.routers.as_slice()
    }

    /// What the entries of a router come from, if it is attached. It takes no memory, and time
    /// logarithmic in the number of routers.
    pub fn routes_of(&self, router: RouterId) -> Option<&RouterRoutes<A>>
        ensures { option_copied result ≡ routes_at self.now.routers router }
    {
        let routers = self.routers();
        match routers.binary_search_by_key(&router, |routes| routes.router()) {
            Ok(index) => Some(&routers[index]),
            Err(_) => None,
        }
    }

    /// The forwarding graph of an address: each attached router with its match.
    ///
    /// # Errors
    ///
    /// Memory ran out.
    pub fn graph(&self, alloc: A, address: Addr) -> Result<ForwardingGraph<A>, AllocError>
        ensures { IfOk result (λ graph. (db : Lists) → IsForwardingOf db self.now
            → graph ≡ graph_of db address) }
    {
        let mut steps = Vec::new(alloc);
        for routes in &self.routers {
            steps.push(step_of(alloc, &self.graphs, routes, address)?)?;
        }
        Ok(ForwardingGraph::from_sorted(steps))
    }
}

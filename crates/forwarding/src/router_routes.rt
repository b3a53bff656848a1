//! What the entries of a router come from.

ghost use Rattle.std.specs.Prelude.{◌≡◌, false, IfOk};
ghost use Rattle.std.specs.Option.{option_copied, option_map_or};
ghost use Rattle.std.specs.List.{list_any};
ghost use Rattle.lsdb.specs.Lists.{Lists};
ghost use Rattle.lsdb.specs.Slots.{lists_of};
ghost use Rattle.forwarding.specs.Matches.{entry_for, is_intra, is_own_hop, is_own_network, match_of, router_in};
ghost use Rattle.forwarding.specs.steps.Bases.{IsBasisOf};
ghost use Rattle.hop_ends.specs.Owners.{AreGraphsOf};

use crate::entry::Match;
use crate::own_externals::own_externals;
use crate::table_basis::TableBasis;
use area_routes::{PathType, Route, Routes};
use hop_ends::AreaGraphs;
use lsa_codec::{Addr, Prefix, RouterId};
use lsdb::Database;
use next_hops::Hop;
use routing_table::Table;
use spf::Meter;
use std::alloc::{AllocError, Allocator, Global};
use std::collections::BTreeSet;
use std::marker::Model;

/// What the entries of a router come from: its table, and the external prefixes that it announces.
#[derive(Drop)]
pub struct RouterRoutes<A: Allocator = Global> {
    table: Table<A>,
    own: BTreeSet<Prefix, A>,
}

impl<A: Allocator> Model for RouterRoutes<A> {
    ghost use Rattle.forwarding.specs.Matches.{RouterValue};

    ghost Value = { RouterValue };

    ghost view = { λ r. record {
      router = r.table.router;
      routes = r.table.routes;
      own = r.own.keys;
    } };
}

/// Whether a hop leads to a network of the router itself.
fn is_own_hop(hop: Hop) -> bool
    ensures { result ≡ is_own_hop hop }
{
    match hop {
        Hop::Connected | Hop::Attached(_) => true,
        Hop::Link(_) | Hop::Gateway(_, _) => false,
    }
}

/// Whether one of the hops leads to a network of the router itself.
fn has_own_hop(hops: &[Hop]) -> bool
    ensures { result ≡ list_any is_own_hop hops.now }
{
    hops.iter().any(|hop| is_own_hop(*hop))
}

/// Whether a route leads to a network of the router itself, if there is a route.
fn is_own_network<A: Allocator + Copy>(route: Option<&Route<A>>) -> bool
    ensures { result ≡ option_map_or is_own_network (option_copied route.entry) false }
{
    match route {
        Some(route) => route.kind == PathType::Intra && has_own_hop(route.hops.as_slice()),
        None => false,
    }
}

impl<A: Allocator + Copy> RouterRoutes<A> {
    /// The table of a router in a database, which is without routes where the router is attached to
    /// no area, and the prefixes of its own AS-external-LSAs. The meter counts the trees.
    ///
    /// # Errors
    ///
    /// Memory ran out.
    pub fn of(
        alloc: A,
        database: &Database<A>,
        router: RouterId,
        meter: &mut Meter,
    ) -> Result<RouterRoutes<A>, AllocError>
        ensures { IfOk result (λ routes. routes ≡ router_in (lists_of database.now) router) }
    {
        RouterRoutes::over(alloc, database, router, &mut TableBasis::new(alloc), meter)
    }

    /// The same over what other tables of the database were calculated from.
    pub(crate) fn over(
        alloc: A,
        database: &Database<A>,
        router: RouterId,
        basis: &mut TableBasis<A>,
        meter: &mut Meter,
    ) -> Result<RouterRoutes<A>, AllocError>
        requires { IsBasisOf (lists_of database.now) basis.old }
        ensures routes { IfOk result (λ routes. routes ≡ router_in (lists_of database.now) router) }
        ensures basis { IsBasisOf (lists_of database.now) basis.new }
    {
        let table = basis.table_or_empty(alloc, database, router, meter)?;
        let own = own_externals(alloc, database, router)?;
        Ok(RouterRoutes { table, own })
    }

    /// The router.
    pub fn router(&self) -> RouterId
        ensures { result ≡ self.now.router }
    {
        self.table.router()
    }

    /// The routes of its table.
    pub fn routes(&self) -> &Routes<A>
        ensures { result.now ≡ self.now.routes }
    {
        self.table.routes()
    }

    /// The prefixes of its own AS-external-LSAs.
    pub fn own(&self) -> &BTreeSet<Prefix, A>
        ensures { result.now.keys ≡ self.now.own }
    {
        &self.own
    }

    /// The entry of the router for a prefix, if there is one.
    ///
    /// # Errors
    ///
    /// Memory ran out.
    pub fn entry_for(
        &self,
        alloc: A,
        graphs: &AreaGraphs<'_, A>,
        net: Prefix,
    ) -> Result<Option<Match<A>>, AllocError>
        ensures { IfOk result (λ found. (db : Lists) → AreGraphsOf db graphs.now
            → found ≡ entry_for db self.now net) }
    {
        let route = self.table.routes().route_to(net);
        if self.own.contains(&net) && !is_own_network(route) {
            return Ok(Some(Match::own(alloc, net)));
        }
        match route {
            Some(route) => Ok(Some(Match::by_route(alloc, graphs, self.router(), route)?)),
            None => Ok(None),
        }
    }

    /// The entry of the router for an address: that of the longest prefix that covers it, if there
    /// is one (RFC 2328, 11.1).
    ///
    /// # Errors
    ///
    /// Memory ran out.
    pub fn match_of(
        &self,
        alloc: A,
        graphs: &AreaGraphs<'_, A>,
        address: Addr,
    ) -> Result<Option<Match<A>>, AllocError>
        ensures { IfOk result (λ found. (db : Lists) → AreGraphsOf db graphs.now
            → found ≡ match_of db self.now address) }
    {
        for shorter in 0..33 {
            let net = Prefix::masked(address, 32 - shorter);
            if let Some(found) = self.entry_for(alloc, graphs, net)? {
                return Ok(Some(found));
            }
        }
        Ok(None)
    }
}

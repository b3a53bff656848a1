//! The entries of a router.

ghost use Rattle.std.specs.Prelude.{◌≡◌, IfOk};
ghost use Rattle.std.specs.List.{list_any};
ghost use Rattle.std.specs.Option.{option_copied, option_map_or};
ghost use Rattle.best_ways.specs.Routes.{route_to};
ghost use Rattle.forwarding.specs.Matches.{is_own_hop, is_own_network};
ghost use Rattle.lsa_codec.specs.Order.{prefix_cmp};
ghost use Rattle.area_graph.specs.Rising.{rising};
ghost use Rattle.router_entries.specs.Entries.{entry_for, has_entry, nets_of};

use crate::entry::Entry;
use best_ways::{PathType, Route, Routes};
use forwarding::RouterRoutes;
use lsa_codec::{Prefix, RouterId};
use next_hops::Hop;
use std::alloc::{AllocError, Allocator};
use std::collections::BTreeSet;
use std::marker::Model;

/// The entries of a router: from the routes of its table, and from the prefixes of its own
/// AS-external-LSAs, which the calculation of its table skips (RFC 2328, 16.4 (2)).
///
/// A network of the router itself comes first, then an external prefix of its own, then other
/// routes: the order of connected and static routes and those of OSPF.
#[derive(Drop)]
pub struct Entries<'a, A: Allocator> {
    pub(crate) router: RouterId,
    pub(crate) routes: &'a Routes<A>,
    pub(crate) own: &'a BTreeSet<Prefix, A>,
}

impl<'a, A: Allocator> Model for Entries<'a, A> {
    ghost use Rattle.forwarding.specs.Matches.{RouterValue};

    ghost Value = { RouterValue };

    ghost view = { λ e. record {
      router = e.router;
      routes = e.routes.now;
      own = e.own.now.keys;
    } };
}

/// Whether one of the hops leads to a network of the router itself.
fn has_own_hop(hops: &[Hop]) -> bool
    ensures { result ≡ list_any is_own_hop hops.now }
{
    hops.iter()
        .any(|hop| matches!(hop, Hop::Connected | Hop::Attached(_)))
}

/// Whether a route leads to a network of the router itself.
fn is_own_network<A: Allocator + Copy>(route: &Route<A>) -> bool
    ensures { result ≡ is_own_network route.now }
{
    route.kind == PathType::Intra && has_own_hop(route.hops.as_slice())
}

impl<'a, A: Allocator + Copy> Entries<'a, A> {
    /// The entries of a router, from the routes of its table, and from the prefixes of its own
    /// AS-external-LSAs.
    pub(crate) fn new(
        router: RouterId,
        routes: &'a Routes<A>,
        own: &'a BTreeSet<Prefix, A>,
    ) -> Entries<'a, A>
        ensures { result ≡ record { router = router; routes = routes.now; own = own.now.keys } }
    {
        Entries {
            router,
            routes,
            own,
        }
    }

    /// The entries of a router, from what they come from.
    pub fn of(from: &'a RouterRoutes<A>) -> Entries<'a, A>
        ensures { result ≡ from.now }
    {
        Entries::new(from.router(), from.routes(), from.own())
    }

    /// The router.
    pub fn router(&self) -> RouterId
        ensures { result ≡ self.now.router }
    {
        self.router
    }

    /// The entry for a prefix, if there is one. It takes no memory, and time logarithmic in the
    /// numbers of routes and prefixes.
    pub fn entry_for(&self, net: Prefix) -> Option<Entry<'a>>
        ensures { result ≡ entry_for self.now net }
    {
        self.entry_by(net, self.routes.route_to(net))
    }

    /// The entry for a prefix by the route to it, if there is one.
    pub(crate) fn entry_by(&self, net: Prefix, route: Option<&'a Route<A>>) -> Option<Entry<'a>>
        requires { option_copied route ≡ route_to self.now.routes net }
        ensures { result ≡ entry_for self.now net }
    {
        let is_own = self.own.contains(&net);
        match route {
            Some(route) if !is_own || is_own_network(route) => Some(Entry::of_route(route)),
            None if !is_own => None,
            _ => Some(Entry::own_external()),
        }
    }

    /// Whether a prefix has an entry. It takes no memory.
    pub fn has_entry(&self, net: Prefix) -> bool
        ensures { result ≡ has_entry self.now net }
    {
        self.routes.has_route(net) || self.own.contains(&net)
    }

    /// The prefixes that have an entry: those of the routes, and then those of the router's own
    /// AS-external-LSAs, each in order.
    ///
    /// # Errors
    ///
    /// Memory ran out.
    pub fn nets(&self, alloc: A) -> Result<Vec<Prefix, A>, AllocError>
        ensures { IfOk result (λ nets. nets.items ≡ nets_of self.now) }
    {
        let mut nets = self.routes.nets(alloc)?;
        let mut own = self.own.iter().copied().collect(alloc)?;
        nets.append(&mut own)?;
        Ok(nets)
    }
    /// The prefixes that have an entry, in order, each once.
    ///
    /// # Errors
    ///
    /// Memory ran out.
    pub fn nets_in_order(&self, alloc: A) -> Result<Vec<Prefix, A>, AllocError>
        ensures { IfOk result (λ nets. nets.items ≡ rising prefix_cmp (nets_of self.now)) }
    {
        let mut nets = self.nets(alloc)?;
        // Two lists in order: a stable sort merges them.
        nets.sort()?;
        nets.dedup();
        Ok(nets)
    }
}

//! The ways inside the AS.

ghost use Rattle.std.specs.Prelude.{◌≡◌, ◌<◌, ◌^◌, IfSome, IfOk, Some};
ghost use Rattle.std.specs.Option.{option_copied};
ghost use Rattle.best_ways.specs.Routes.{has_route};
ghost use Rattle.external_routes.specs.Choose.{forward_match, preferred};
ghost use Rattle.external_routes.specs.steps.Lookup.{WaysBelow};

use crate::asbr_map::{AsbrMap, map_asbrs};
use crate::forward::{forward_match, lengths};
use crate::place::has_route_near;
use area_routes::{InsideRoutes, Route, RouterEntries, RouterEntry, Routes};
use lsa_codec::{Addr, Prefix, RouterId};
use std::alloc::{AllocError, Allocator, Global};
use std::marker::Model;

/// How many entries are remembered.
const REMEMBERED: usize = 256;

/// The place at which the entry of a router is remembered. Close Router IDs have different places.
fn place_of(asbr: RouterId) -> usize
    ensures { result < 256 }
{
    (asbr.0.wrapping_mul(0x9E37_79B9) >> 24) as usize
}

/// The routes and the router entries of a router inside the AS, on which its external routes are
/// built. Contracts see it as the record of the two lists.
#[derive(Drop)]
pub(crate) struct Inside<'a, A: Allocator = Global> {
    routes: &'a Routes<A>,
    entries: &'a [RouterEntry<A>],
    /// Which lengths the routes' prefixes have.
    lengths: [bool; 33],
    /// The preferred entry of each AS boundary router.
    asbrs: AsbrMap<A>,
    /// The place among the routes of the prefix that was looked up last, or where it would be.
    place: usize,
    /// The indexes of preferred entries that were found before, each at the place of its router.
    remembered: [usize; 256],
}

impl<'a, A: Allocator> Model for Inside<'a, A> {
    ghost use Rattle.external_routes.specs.steps.Lookup.{WaysInside, IsInside};

    ghost Value = { WaysInside };

    ghost view = { λ i. record { routes = i.routes.now; entries = i.entries.now } };

    ghost invariant = { λ i. IsInside (record { routes = i.routes.now; entries = i.entries.now })
        i.lengths i.asbrs i.remembered };
}

impl<'a, A: Allocator + Copy> Inside<'a, A> {
    /// The ways inside the AS with these routes and router entries.
    pub(crate) fn new(
        alloc: A,
        routes: &'a InsideRoutes<A>,
        entries: &'a RouterEntries<A>,
    ) -> Result<Inside<'a, A>, AllocError>
        ensures value { IfOk result (λ inside. inside
            ≡ record { routes = routes.now; entries = entries.now }) }
        ensures below { IfOk result (WaysBelow (2 ^ 34)) }
    {
        let routes = routes.as_routes();
        let entries = entries.as_slice();
        Ok(Inside {
            routes,
            entries,
            lengths: lengths(routes.as_slice()),
            asbrs: map_asbrs(alloc, entries)?,
            place: 0,
            remembered: [entries.len(); REMEMBERED],
        })
    }

    /// Whether a prefix has a route. There is no search where no route has a prefix of this length.
    pub(crate) fn has_route(&mut self, net: Prefix) -> bool
        ensures result { result ≡ has_route self.old.routes net }
        ensures same { self.new ≡ self.old }
    {
        if !self.lengths[usize::from(net.len())] {
            return false;
        }
        has_route_near(self.routes, &mut self.place, net)
    }

    /// The route of the longest prefix that covers an address.
    pub(crate) fn forward_match(&self, addr: Addr) -> Option<&'a Route<A>>
        ensures route { option_copied result ≡ forward_match self.now.routes addr }
        ensures small { IfSome result (λ route. route.now.cost < 2 ^ 34) }
    {
        forward_match(self.routes, &self.lengths, addr)
    }

    /// The preferred entry of a router as an AS boundary router, if it is remembered.
    fn recalled(&self, asbr: RouterId) -> Option<&'a RouterEntry<A>>
        ensures entry { IfSome result (λ entry. Some entry.now
            ≡ preferred self.now.entries asbr) }
        ensures small { IfSome result (λ entry. entry.now.cost < 2 ^ 34) }
    {
        let entry = self.entries.get(self.remembered[place_of(asbr)])?;
        if entry.router == asbr {
            Some(entry)
        } else {
            None
        }
    }

    /// The preferred entry of a router as an AS boundary router, which is remembered from then on.
    fn looked_up(&mut self, asbr: RouterId) -> Option<&'a RouterEntry<A>>
        ensures entry { option_copied result ≡ preferred self.old.entries asbr }
        ensures small { IfSome result (λ entry. entry.now.cost < 2 ^ 34) }
        ensures same { self.new ≡ self.old }
    {
        let index = *self.asbrs.get(&asbr)?;
        self.remembered[place_of(asbr)] = index;
        self.entries.get(index)
    }

    /// The preferred entry of a router as an AS boundary router.
    pub(crate) fn preferred(&mut self, asbr: RouterId) -> Option<&'a RouterEntry<A>>
        ensures entry { option_copied result ≡ preferred self.old.entries asbr }
        ensures small { IfSome result (λ entry. entry.now.cost < 2 ^ 34) }
        ensures same { self.new ≡ self.old }
    {
        match self.recalled(asbr) {
            Some(entry) => Some(entry),
            None => self.looked_up(asbr),
        }
    }
}

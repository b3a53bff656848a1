//! Entries that are looked up in order of prefix.

ghost use Rattle.std.specs.Prelude.{◌≡◌};
ghost use Rattle.std.specs.Option.{option_copied};
ghost use Rattle.best_ways.specs.Routes.{route_to};
ghost use Rattle.router_entries.specs.Entries.{entry_for};

use crate::entries::Entries;
use crate::entry::Entry;
use best_ways::Route;
use lsa_codec::Prefix;
use std::alloc::Allocator;
use std::marker::Model;

/// The entries of a router, and the place of the route after the one that was found last: where
/// prefixes are looked up in order, the next route that is found stands there. Contracts see it as
/// the entries.
#[derive(Drop)]
pub struct EntryWalk<'a, A: Allocator> {
    entries: Entries<'a, A>,
    place: usize,
}

impl<'a, A: Allocator> Model for EntryWalk<'a, A> {
    ghost use Rattle.forwarding.specs.Matches.{RouterValue};

    ghost Value = { RouterValue };

    ghost view = { λ w. w.entries };
}

impl<'a, A: Allocator + Copy> EntryWalk<'a, A> {
    /// At the first route.
    pub fn of(entries: &Entries<'a, A>) -> EntryWalk<'a, A>
        ensures { result ≡ entries.now }
    {
        EntryWalk {
            entries: Entries::new(entries.router, entries.routes, entries.own),
            place: 0,
        }
    }

    /// The route to a prefix. There is no search where it stands at the place.
    fn next_route(&mut self, net: Prefix) -> Option<&'a Route<A>>
        ensures route { option_copied result ≡ route_to self.old.routes net }
        ensures same { self.new ≡ self.old }
    {
        let routes = self.entries.routes;
        match routes.as_slice().get(self.place) {
            Some(route) if route.net == net => {
                self.place = self.place.wrapping_add(1);
                Some(route)
            }
            _ => routes.route_to(net),
        }
    }

    /// The entry for a prefix, if there is one.
    pub fn entry_for(&mut self, net: Prefix) -> Option<Entry<'a>>
        ensures entry { result ≡ entry_for self.old net }
        ensures same { self.new ≡ self.old }
    {
        let route = self.next_route(net);
        self.entries.entry_by(net, route)
    }
}

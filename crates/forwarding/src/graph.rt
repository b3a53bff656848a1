//! The forwarding graph of an address.

ghost use Rattle.std.specs.Prelude.{◌≡◌, map};
ghost use Rattle.std.specs.List.Sorted.{IsStrictlySortedBy};
ghost use Rattle.std.specs.Option.{option_copied};
ghost use Rattle.lsa_codec.specs.Order.{router_cmp};
ghost use Rattle.forwarding.specs.Graphs.{step_at, ways_at};

use crate::entry::Match;
use hop_ends::Way;
use lsa_codec::RouterId;
use std::alloc::{Allocator, Global};
use std::marker::Model;

/// What a router does with packets for an address.
#[derive(Drop)]
pub struct RouterStep<A: Allocator = Global> {
    /// The router.
    pub router: RouterId,
    /// Its match of the address. Without one it drops the packets.
    pub matched: Option<Match<A>>,
}

impl<A: Allocator> Model for RouterStep<A> {
    ghost use Rattle.std.specs.Prelude.{option_map};
    ghost use Rattle.forwarding.specs.Graphs.{StepValue};

    ghost Value = { StepValue };

    ghost view = { λ s. record { router = s.router; matched = s.matched } };
}

/// The forwarding graph of an address: each attached router with its match. Its steps lead from a
/// router to those that the ways of its match lead to. Contracts see it as the list of routers.
#[derive(Drop)]
pub struct ForwardingGraph<A: Allocator = Global> {
    pub(crate) steps: Vec<RouterStep<A>, A>,
}

impl<A: Allocator> Model for ForwardingGraph<A> {
    ghost use Rattle.std.specs.Prelude.{List, map};
    ghost use Rattle.std.specs.List.Sorted.{IsStrictlySortedBy};
    ghost use Rattle.lsa_codec.specs.Order.{router_cmp};
    ghost use Rattle.forwarding.specs.Graphs.{StepValue};

    ghost Value = { List StepValue };

    ghost view = { λ g. g.steps.items };

    ghost invariant = { λ g. IsStrictlySortedBy router_cmp (map (λ s. s.router) g.steps.items) };
}

impl<A: Allocator + Copy> ForwardingGraph<A> {
    /// The graph of routers that are in rising order.
    pub(crate) fn from_sorted(steps: Vec<RouterStep<A>, A>) -> ForwardingGraph<A>
        requires { IsStrictlySortedBy router_cmp (map (λ s. s.router) steps.items) }
        ensures { result ≡ steps.items }
    {
        ForwardingGraph { steps }
    }

    /// The routers in rising order, each with its match.
    pub fn as_slice(&self) -> &[RouterStep<A>]
        ensures steps { result.now ≡ self.now }
        ensures sorted { IsStrictlySortedBy router_cmp (map (λ s. s.router) result.now) }
    {
        self.steps.as_slice()
    }

    /// A router of the graph with its match. It takes no memory, and time logarithmic in the number
    /// of routers.
    pub fn step(&self, router: RouterId) -> Option<&RouterStep<A>>
        ensures { option_copied result ≡ step_at self.now router }
    {
        let steps = self.as_slice();
        match steps.binary_search_by_key(&router, |step| step.router) {
            Ok(index) => Some(&steps[index]),
            Err(_) => None,
        }
    }

    /// The ways of a router: none where it is not in the graph, or has no match.
    pub(crate) fn ways_at(&self, router: RouterId) -> &[Way]
        ensures { result.now ≡ ways_at self.now router }
    {
        let Some(step) = self.step(router) else {
            return &[];
        };
        match &step.matched {
            Some(found) => &found.ways,
            None => &[],
        }
    }
}

//! How walks end.

ghost use Rattle.std.specs.Prelude.{◌≡◌};
ghost use Rattle.std.specs.List.{list_any};
ghost use Rattle.std.specs.Option.{option_copied};
ghost use Rattle.lsa_codec.specs.declared.address.RouterId.{RouterId as AnyRouter};
ghost use Rattle.forwarding.specs.Graphs.{AreEnds, delivers, drops, leaves_network, next_in};
ghost use Rattle.forwarding.specs.Walks.{AreReached};
ghost use Rattle.hop_ends.specs.Ways.{is_direct, is_exit};
ghost use Rattle.forwarding.specs.steps.Ending.{either, ends_at, no_ends};

use crate::graph::{ForwardingGraph, RouterStep};
use hop_ends::Way;
use lsa_codec::RouterId;
use std::alloc::Allocator;

/// How the walks from a router end, apart from loops.
#[derive(Clone, Copy, Debug, PartialEq, Eq)]
pub struct Ends {
    /// Some are delivered, on a network of the router that they reach.
    pub is_delivered: bool,
    /// Some leave the network: by a source of the router's own, or to a forwarding address outside.
    pub is_external: bool,
    /// Some reach a router without a match, which drops the packets.
    pub is_blackhole: bool,
}

/// Whether one of the ways leads to a network of the router itself.
fn has_direct(ways: &[Way]) -> bool
    ensures { result ≡ list_any is_direct ways.now }
{
    ways.iter().any(|way| way.is_direct())
}

/// Whether one of the ways leads out of the network.
fn has_exit(ways: &[Way]) -> bool
    ensures { result ≡ list_any is_exit ways.now }
{
    ways.iter().any(|way| way.is_exit())
}

impl<A: Allocator + Copy> RouterStep<A> {
    /// Whether the router delivers packets, on a network of its own.
    pub fn delivers(&self) -> bool
        ensures { result ≡ delivers self.now }
    {
        match &self.matched {
            Some(found) => has_direct(&found.ways),
            None => false,
        }
    }

    /// Whether packets leave the network at the router: by a source of its own, or to a forwarding
    /// address outside.
    pub fn leaves_network(&self) -> bool
        ensures { result ≡ leaves_network self.now }
    {
        match &self.matched {
            Some(found) => found.is_own || has_exit(&found.ways),
            None => false,
        }
    }

    /// Whether the router drops packets: it has no match.
    pub fn drops(&self) -> bool
        ensures { result ≡ drops self.now }
    {
        self.matched.is_none()
    }
}

impl Ends {
    /// Those of no walk.
    fn none() -> Ends
        ensures { result ≡ no_ends }
    {
        Ends {
            is_delivered: false,
            is_external: false,
            is_blackhole: false,
        }
    }

    /// Those of the walks of both.
    fn either(self, other: Ends) -> Ends
        ensures { result ≡ either self other }
    {
        Ends {
            is_delivered: self.is_delivered || other.is_delivered,
            is_external: self.is_external || other.is_external,
            is_blackhole: self.is_blackhole || other.is_blackhole,
        }
    }
}

/// The ends of walks at a router, if it is in the graph.
fn ends_at<A: Allocator + Copy>(step: Option<&RouterStep<A>>) -> Ends
    ensures { result ≡ ends_at (option_copied step.entry) }
{
    match step {
        Some(step) => Ends {
            is_delivered: step.delivers(),
            is_external: step.leaves_network(),
            is_blackhole: step.drops(),
        },
        None => Ends::none(),
    }
}

impl<A: Allocator + Copy> ForwardingGraph<A> {
    /// How the walks from a router end, apart from loops, by the routers that they reach. It takes
    /// no memory.
    pub fn ends(&self, reached: &[RouterId]) -> Ends
        ensures { (start : AnyRouter) → AreReached (next_in self.now) start reached.now
            → AreEnds self.now start result }
    {
        let mut ends = Ends::none();
        for router in reached {
            ends = ends.either(ends_at(self.step(*router)));
        }
        ends
    }
}

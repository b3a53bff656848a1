//! Blackholes of forwarding graphs.

ghost use Rattle.std.specs.Prelude.{◌≡◌, false, filter, map, IfOk};
ghost use Rattle.std.specs.List.{list_any};
ghost use Rattle.std.specs.Option.{option_copied, option_map_or};
ghost use Rattle.forwarding.specs.Graphs.{drops};
ghost use Rattle.microloops.specs.Changeover.{routers_of};
ghost use Rattle.loop_report.specs.Blackholes.{blackhole_at, is_blackhole, is_new, leads_to, new_blackholes, senders, sends_to, ways_of};

use forwarding::{ForwardingGraph, RouterStep};
use hop_ends::Way;
use lsa_codec::{Prefix, RouterId};
use std::alloc::{AllocError, Allocator, Global};
use std::marker::Model;

/// A router without a match for the addresses of an atom, to which others send packets for them.
#[derive(Drop)]
pub struct Blackhole<A: Allocator = Global> {
    net: Prefix,
    router: RouterId,
    senders: Vec<RouterId, A>,
}

impl<A: Allocator> Model for Blackhole<A> {
    ghost use Rattle.loop_report.specs.Blackholes.{BlackholeValue};

    ghost Value = { BlackholeValue };

    ghost view = { λ b. record { net = b.net; router = b.router; senders = b.senders.items } };
}

/// The ways of a router's match, if it has one.
fn ways_of<A: Allocator + Copy>(step: &RouterStep<A>) -> &[Way]
    ensures { result.now ≡ ways_of step.now }
{
    match &step.matched {
        Some(found) => &found.ways,
        None => &[],
    }
}

/// Whether a way leads to a router.
fn leads_to(to: RouterId, way: Way) -> bool
    ensures { result ≡ leads_to to way }
{
    match way.router() {
        Some(router) => router == to,
        None => false,
    }
}

/// Whether a router sends to another one.
fn sends_to<A: Allocator + Copy>(to: RouterId, step: &RouterStep<A>) -> bool
    ensures { result ≡ sends_to to step.now }
{
    ways_of(step).iter().any(|way| leads_to(to, *way))
}

/// Whether a router has no match, if it is in a graph.
fn drops<A: Allocator + Copy>(step: Option<&RouterStep<A>>) -> bool
    ensures { result ≡ option_map_or drops (option_copied step.entry) false }
{
    match step {
        Some(step) => step.matched.is_none(),
        None => false,
    }
}

/// Whether a router sends to this one.
fn any_sends_to<A: Allocator + Copy>(graph: &ForwardingGraph<A>, to: RouterId) -> bool
    ensures { result ≡ list_any (sends_to to) graph.now }
{
    graph.as_slice().iter().any(|step| sends_to(to, step))
}

/// Whether a router has no match, and another one sends to it.
fn is_blackhole<A: Allocator + Copy>(graph: &ForwardingGraph<A>, router: RouterId) -> bool
    ensures { result ≡ is_blackhole graph.now router }
{
    drops(graph.step(router)) && any_sends_to(graph, router)
}

/// Whether a router is a blackhole now and was none before.
fn is_new<A: Allocator + Copy>(
    was: &ForwardingGraph<A>,
    is: &ForwardingGraph<A>,
    router: RouterId,
) -> bool
    ensures { result ≡ is_new was.now is.now router }
{
    is_blackhole(is, router) && !is_blackhole(was, router)
}

/// The routers that are blackholes now and were none before.
fn new_ones<A: Allocator + Copy>(
    alloc: A,
    was: &ForwardingGraph<A>,
    is: &ForwardingGraph<A>,
) -> Result<Vec<RouterId, A>, AllocError>
    ensures { IfOk result
        (λ found. found.items ≡ filter (is_new was.now is.now) (routers_of is.now)) }
{
    is.as_slice()
        .iter()
        .map(|step| step.router)
        .filter(|router| is_new(was, is, *router))
        .collect(alloc)
}

/// The routers that send to this one.
fn senders<A: Allocator + Copy>(
    alloc: A,
    graph: &ForwardingGraph<A>,
    to: RouterId,
) -> Result<Vec<RouterId, A>, AllocError>
    ensures { IfOk result (λ found. found.items ≡ senders graph.now to) }
{
    graph
        .as_slice()
        .iter()
        .filter(|step| sends_to(to, step))
        .map(|step| step.router)
        .collect(alloc)
}

impl<A: Allocator + Copy> Blackhole<A> {
    /// A router as a blackhole of a graph.
    fn of(
        alloc: A,
        net: Prefix,
        graph: &ForwardingGraph<A>,
        router: RouterId,
    ) -> Result<Blackhole<A>, AllocError>
        ensures { IfOk result (λ found. found ≡ blackhole_at net graph.now router) }
    {
        let senders = senders(alloc, graph, router)?;
        Ok(Blackhole {
            net,
            router,
            senders,
        })
    }

    /// The prefix of the atom.
    pub fn net(&self) -> Prefix
        ensures { result ≡ self.now.net }
    {
        self.net
    }

    /// The router.
    pub fn router(&self) -> RouterId
        ensures { result ≡ self.now.router }
    {
        self.router
    }

    /// The routers that send to it, in rising order.
    pub fn senders(&self) -> &[RouterId]
        ensures { result.now ≡ self.now.senders }
    {
        self.senders.as_slice()
    }
}

/// The blackholes of a graph that are none of the graph before.
///
/// # Errors
///
/// Memory ran out.
pub(crate) fn new_blackholes<A: Allocator + Copy>(
    alloc: A,
    net: Prefix,
    was: &ForwardingGraph<A>,
    is: &ForwardingGraph<A>,
) -> Result<Vec<Blackhole<A>, A>, AllocError>
    ensures { IfOk result (λ found. found.items ≡ new_blackholes net was.now is.now) }
{
    let mut found = Vec::new(alloc);
    for router in &new_ones(alloc, was, is)? {
        found.push(Blackhole::of(alloc, net, is, *router)?)?;
    }
    Ok(found)
}

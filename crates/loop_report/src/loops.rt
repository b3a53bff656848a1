//! The loops of forwarding graphs.

ghost use Rattle.std.specs.Prelude.{◌≡◌, IfOk, map};
ghost use Rattle.loop_report.specs.Loops.{AreJointLoops, AreLoopsOf, at_net};

use forwarding::ForwardingGraph;
use lsa_codec::{Prefix, RouterId};
use microloops::{Microloop, equal_graphs_have_their_loops, microloops};
use std::alloc::{AllocError, Allocator, Global};
use std::marker::Model;

/// A loop: the routers between which packets for the addresses of an atom go round.
#[derive(Drop)]
pub struct PrefixLoop<A: Allocator = Global> {
    net: Prefix,
    routers: Microloop<A>,
}

impl<A: Allocator> Model for PrefixLoop<A> {
    ghost use Rattle.loop_report.specs.Loops.{LoopValue, at_net};

    ghost Value = { LoopValue };

    ghost view = { λ l. at_net l.net l.routers };
}

impl<A: Allocator + Copy> PrefixLoop<A> {
    /// The prefix of the atom.
    pub fn net(&self) -> Prefix
        ensures { result ≡ self.now.net }
    {
        self.net
    }

    /// The routers in rising order.
    pub fn routers(&self) -> &[RouterId]
        ensures { result.now ≡ self.now.routers }
    {
        self.routers.as_slice()
    }
}

/// Loops with the prefix of their atom.
fn with_net<A: Allocator + Copy>(
    alloc: A,
    net: Prefix,
    loops: Vec<Microloop<A>, A>,
) -> Result<Vec<PrefixLoop<A>, A>, AllocError>
    ensures { IfOk result (λ found. found.items ≡ map (at_net net) loops.items) }
{
    loops
        .into_iter()
        .map(|routers| PrefixLoop { net, routers })
        .collect(alloc)
}

/// The loops of two forwarding graphs together, where each router sends by either.
///
/// # Errors
///
/// Memory ran out.
pub(crate) fn joint_loops_at<A: Allocator + Copy>(
    alloc: A,
    net: Prefix,
    was: &ForwardingGraph<A>,
    is: &ForwardingGraph<A>,
) -> Result<Vec<PrefixLoop<A>, A>, AllocError>
    ensures { IfOk result (λ found. AreJointLoops net was.now is.now found.items) }
{
    let loops = microloops(alloc, was, is)?;
    with_net(alloc, net, loops)
}

/// The loops of a forwarding graph, in time almost linear in its ways.
///
/// # Errors
///
/// Memory ran out.
pub(crate) fn loops_at<A: Allocator + Copy>(
    alloc: A,
    net: Prefix,
    graph: &ForwardingGraph<A>,
) -> Result<Vec<PrefixLoop<A>, A>, AllocError>
    ensures { IfOk result (λ found. AreLoopsOf net graph.now found.items) }
{
    equal_graphs_have_their_loops();
    joint_loops_at(alloc, net, graph, graph)
}

//! What stands beside a link: the network of a transit link, the cost back, and stub links of
//! interfaces.

ghost use Rattle.std.specs.Prelude.{◌≡◌, ◌<◌, ◌^◌, IfOk, option_map};
ghost use Rattle.std.specs.Option.{option_copied};
ghost use Rattle.lsa_codec.specs.Links.{is_transit};
ghost use Rattle.interfaces.specs.Networks.{network_lsa_in};
ghost use Rattle.link_report.specs.Links.{back_of, cost_from_network, interface_numbered, is_listed, net_of_link, network_of, owner_of, stub_of};

use area_graph::VertexLsa;
use interfaces::{Interface, costs_back, lists_router, network_lsa_in, stub_between};
use lsa_codec::{Addr, Link, LinkKind, NetworkView, Prefix, RouterId};
use std::alloc::{AllocError, Allocator};

/// The stub link of an interface.
#[derive(Clone, Copy, Debug, PartialEq, Eq)]
pub struct InterfaceStub {
    /// Its number in the router-LSA, counted from 1.
    pub number: usize,
    /// The link, of type 3.
    pub link: Link,
}

/// Whether a link leads to a transit network.
fn is_transit(link: Link) -> bool
    ensures { result ≡ is_transit link.kind }
{
    matches!(link.kind, LinkKind::Transit)
}

/// The network-LSA in use of the network whose Designated Router has this address.
fn network_with<'a, A: Allocator + Copy>(
    used: &[VertexLsa<'a, A>],
    address: Addr,
) -> Option<NetworkView<'a>>
    ensures { result ≡ network_lsa_in used.now address }
{
    let lsa = network_lsa_in(used, address)?;
    lsa.network()
}

/// The network-LSA in use of the network that a transit link leads to. Other links have none.
pub(crate) fn network_of<'a, A: Allocator + Copy>(
    used: &[VertexLsa<'a, A>],
    link: Link,
) -> Option<NetworkView<'a>>
    ensures { result ≡ network_of used.now link }
{
    if is_transit(link) {
        network_with(used, link.id)
    } else {
        None
    }
}

/// Whether a network-LSA is there and lists a router.
fn is_listed(network: Option<&NetworkView<'_>>, router: RouterId) -> bool
    ensures { result ≡ is_listed (option_copied network.entry) router }
{
    match network {
        Some(lsa) => lists_router(lsa, router),
        None => false,
    }
}

/// The cost from a network to a router, 0, where the network's LSA lists the router.
fn cost_from_network<A: Allocator + Copy>(
    alloc: A,
    network: Option<&NetworkView<'_>>,
    router: RouterId,
) -> Result<Vec<u32, A>, AllocError>
    ensures { IfOk result
        (λ costs. costs.items ≡ cost_from_network (option_copied network.entry) router) }
{
    let mut costs = Vec::new(alloc);
    if is_listed(network, router) {
        costs.push(0)?;
    }
    Ok(costs)
}

/// What it costs to come back over a link of a router: the metrics of its far ends, in rising
/// order, or 0 from a network that lists the router.
pub(crate) fn costs_of<A: Allocator + Copy>(
    alloc: A,
    network: Option<&NetworkView<'_>>,
    router: RouterId,
    link: Link,
    ends: &[Interface],
) -> Result<Vec<u32, A>, AllocError>
    ensures { IfOk result (λ costs. costs.items
        ≡ back_of (option_copied network.entry) router link ends.now) }
{
    if is_transit(link) {
        cost_from_network(alloc, network, router)
    } else {
        costs_back(alloc, ends)
    }
}

/// The prefix of a transit link's network, or of a stub link.
pub(crate) fn net_of(network: Option<&NetworkView<'_>>, link: Link) -> Option<Prefix>
    ensures { result ≡ net_of_link (option_copied network.entry) link }
{
    match network {
        Some(lsa) => Some(lsa.net()),
        None => link.net(),
    }
}

/// The stub link of an interface with this number: that which stands right after its link, and has
/// the address of the interface.
pub(crate) fn stub_of(number: usize, own: Interface) -> Option<InterfaceStub>
    requires { number < 2 ^ 63 }
    ensures { result ≡ stub_of number own }
{
    let link = stub_between(own, &[])?;
    Some(InterfaceStub {
        number: number + 1,
        link,
    })
}

/// The number of the interface whose stub link is the link after it, if it has one.
pub(crate) fn owner_of(number: usize, before: Option<Interface>) -> Option<usize>
    ensures { result ≡ owner_of number before }
{
    stub_between(before?, &[])?;
    Some(number)
}

/// Interface `number` of a list, counted from 1.
pub(crate) fn interface_numbered(number: usize, all: &[Interface]) -> Option<Interface>
    ensures { result ≡ interface_numbered number all.now }
{
    if number == 0 {
        return None;
    }
    all.get(number - 1).copied()
}

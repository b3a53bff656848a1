//! Transit networks, and the routers that are attached to them.

ghost use Rattle.std.specs.Prelude.{◌≡◌, ◌==◌, IfOk, option_map};
ghost use Rattle.std.specs.List.{list_any};
ghost use Rattle.lsa_codec.specs.Links.{links_of};
ghost use Rattle.lsa_codec.specs.Making.{leads_to_net};
ghost use Rattle.lsdb.specs.Lists.{is_network};
ghost use Rattle.lsdb.specs.Slots.{lists_of};
ghost use Rattle.interfaces.specs.Networks.{network_lsa_in, lists_router, joins, members_of};

use crate::router_lsa::router_lsa_of;
use area_graph::VertexLsa;
use lsa_codec::{
    Addr, AreaId, Link, LinkKind, Lsa, NETWORK_LSA, NetworkView, RouterId, RouterView,
};
use lsdb::Database;
use std::alloc::{AllocError, Allocator};

/// A router that a network-LSA lists as attached (RFC 2328, A.4.3).
#[derive(Clone, Copy, Debug, PartialEq, Eq)]
pub struct Member {
    /// The router.
    pub router: RouterId,
    /// Whether the router's LSA in the area has a link to the network. Else no path leads over the
    /// network to the router (RFC 2328, 16.1).
    pub is_joined: bool,
}

/// Whether an LSA is a network-LSA of the network whose Designated Router has this address.
fn is_network<A: Allocator + Copy>(lsa: &Lsa<A>, network: Addr) -> bool
    ensures { result ≡ is_network network lsa.now }
{
    let key = lsa.key();
    key.kind == NETWORK_LSA && key.id.0 == network.0
}

/// The network-LSA of the network whose Designated Router has this address, among the LSAs in use
/// of an area, which [`used_lsas`](area_graph::used_lsas) returns. Its time grows with their
/// number.
pub fn network_lsa_in<'a, A: Allocator + Copy>(
    used: &[VertexLsa<'a, A>],
    network: Addr,
) -> Option<&'a Lsa<A>>
    ensures { option_map (λ lsa. lsa.now) result ≡ network_lsa_in used.now network }
{
    for vertex in used {
        let lsa = vertex.lsa();
        if is_network(lsa, network) {
            return Some(lsa);
        }
    }
    None
}

/// Whether two Router IDs are the same.
fn is_same(one: RouterId, other: RouterId) -> bool
    ensures { result ≡ (one.0 == other.0) }
{
    one.0 == other.0
}

/// Whether a network-LSA lists a router as attached: packets from the network reach the router at
/// cost 0 (RFC 2328, 16.1).
pub fn lists_router(lsa: &NetworkView<'_>, router: RouterId) -> bool
    ensures { result ≡ lists_router lsa.now router }
{
    lsa.attached().any(|listed| is_same(listed, router))
}

/// Whether a link is one to a transit network.
fn leads_to_net(link: Link, network: Addr) -> bool
    ensures { result ≡ leads_to_net network link }
{
    matches!(link.kind, LinkKind::Transit) && link.id.0 == network.0
}

/// Whether a router-LSA has a link to a transit network.
fn has_link_to_net(lsa: &RouterView<'_>, network: Addr) -> bool
    ensures { result ≡ list_any (leads_to_net network) (links_of lsa.now) }
{
    lsa.links().any(|link| leads_to_net(link, network))
}

/// Whether a router's LSA in an area has a link to a transit network.
fn joins<A: Allocator + Copy>(
    database: &Database<A>,
    area: AreaId,
    network: Addr,
    router: RouterId,
) -> bool
    ensures { result ≡ joins (lists_of database.now) area network router }
{
    match router_lsa_of(database, area, router) {
        Some(lsa) => has_link_to_net(&lsa, network),
        None => false,
    }
}

/// The routers that a network-LSA of an area lists, in the order of the LSA. Other LSAs list none.
///
/// # Errors
///
/// Memory ran out.
pub fn members_of<A: Allocator + Copy>(
    alloc: A,
    database: &Database<A>,
    area: AreaId,
    lsa: &Lsa<A>,
) -> Result<Vec<Member, A>, AllocError>
    ensures { IfOk result (λ members. members.items
        ≡ members_of (lists_of database.now) area lsa.now) }
{
    let Some(view) = lsa.network() else {
        return Ok(Vec::new(alloc));
    };
    let network = lsa.key().id;
    view.attached()
        .map(|router| Member {
            router,
            is_joined: joins(database, area, network, router),
        })
        .collect(alloc)
}

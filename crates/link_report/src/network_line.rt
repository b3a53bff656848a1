//! What is said of each transit network.

ghost use Rattle.std.specs.Prelude.{◌≡◌, ◌++◌, IfOk, OnOk};
ghost use Rattle.std.specs.List.{filter_map};
ghost use Rattle.lsdb.specs.Slots.{lists_of};
ghost use Rattle.link_report.specs.Networks.{joined, network_in, network_place, network_value, network_values, networks_in, not_joined};

use crate::areas::{UsedArea, used_areas};
use crate::lists::rising;
use area_graph::VertexLsa;
use interfaces::{Member, members_of, network_lsa_in};
use lsa_codec::{Addr, AreaId, Lsa, Prefix, RouterId};
use lsdb::Database;
use std::alloc::{AllocError, Allocator, Global};
use std::marker::Model;

/// Where the line of a network stands: by prefix, then by Link State ID.
#[derive(Clone, Copy, Debug, PartialEq, Eq, PartialOrd, Ord)]
pub struct NetworkPlace {
    /// The prefix of the network.
    pub net: Prefix,
    /// The address of its Designated Router, which is the Link State ID.
    pub address: Addr,
}

/// A transit network, by its network-LSA in use. Contracts see it as the record of its fields.
#[derive(Drop)]
pub struct NetworkLine<A: Allocator = Global> {
    /// The area.
    pub area: AreaId,
    /// Its prefix, and the address of its Designated Router.
    pub place: NetworkPlace,
    /// The Designated Router, which originated the LSA.
    pub router: RouterId,
    /// The routers that the LSA lists and that have a link to the network, in rising order.
    pub members: Vec<RouterId, A>,
    /// The others that the LSA lists, in rising order.
    pub one_way: Vec<RouterId, A>,
}

impl<A: Allocator> Model for NetworkLine<A> {
    ghost use Rattle.link_report.specs.Networks.{NetworkValue};

    ghost Value = { NetworkValue };

    ghost view = { λ n. record {
      area = n.area;
      place = n.place;
      router = n.router;
      members = n.members.items;
      one_way = n.one_way.items;
    } };
}

/// The place of a network-LSA. Other LSAs have none.
fn network_place<A: Allocator + Copy>(lsa: &Lsa<A>) -> Option<NetworkPlace>
    ensures { result ≡ network_place lsa.now }
{
    let view = lsa.network()?;
    Some(NetworkPlace {
        net: view.net(),
        address: lsa.key().id,
    })
}

/// The places of the network-LSAs of an area.
fn places<A: Allocator + Copy>(
    alloc: A,
    used: &[VertexLsa<'_, A>],
) -> Result<Vec<NetworkPlace, A>, AllocError>
    ensures { IfOk result (λ places. places.items ≡ filter_map network_place used.now) }
{
    used.iter()
        .filter_map(|vertex| network_place(vertex.lsa()))
        .collect(alloc)
}

/// The members that have a link to the network.
fn joined<A: Allocator + Copy>(alloc: A, members: &[Member]) -> Result<Vec<RouterId, A>, AllocError>
    ensures { IfOk result (λ routers. routers.items ≡ joined members.now) }
{
    members
        .iter()
        .filter(|member| member.is_joined)
        .map(|member| member.router)
        .collect(alloc)
}

/// The members that have no link to the network.
fn not_joined<A: Allocator + Copy>(
    alloc: A,
    members: &[Member],
) -> Result<Vec<RouterId, A>, AllocError>
    ensures { IfOk result (λ routers. routers.items ≡ not_joined members.now) }
{
    members
        .iter()
        .filter(|member| !member.is_joined)
        .map(|member| member.router)
        .collect(alloc)
}

/// What is said of the network at a place.
fn network_line<A: Allocator + Copy>(
    alloc: A,
    area: &UsedArea<'_, A>,
    place: NetworkPlace,
    lsa: &Lsa<A>,
) -> Result<NetworkLine<A>, AllocError>
    ensures { IfOk result (λ line. line ≡ network_value area.now place lsa.now) }
{
    let members = members_of(alloc, area.database(), area.area(), lsa)?;
    Ok(NetworkLine {
        area: area.area(),
        place,
        router: lsa.key().adv,
        members: rising(alloc, &joined(alloc, &members)?)?,
        one_way: rising(alloc, &not_joined(alloc, &members)?)?,
    })
}

/// Adds what is said of the network at a place, if it has a network-LSA in use.
fn push_network<A: Allocator + Copy>(
    lines: &mut Vec<NetworkLine<A>, A>,
    alloc: A,
    area: &UsedArea<'_, A>,
    place: NetworkPlace,
) -> Result<(), AllocError>
    ensures { OnOk result (lines.new.items ≡ lines.old.items ++ network_in area.now place) }
{
    if let Some(lsa) = network_lsa_in(area.lsas(), place.address) {
        lines.push(network_line(alloc, area, place, lsa)?)?;
    }
    Ok(())
}

/// Adds what is said of the networks of an area, by prefix and Link State ID.
fn push_networks<A: Allocator + Copy>(
    lines: &mut Vec<NetworkLine<A>, A>,
    alloc: A,
    area: &UsedArea<'_, A>,
) -> Result<(), AllocError>
    ensures { OnOk result (lines.new.items ≡ lines.old.items ++ networks_in area.now) }
{
    let places = rising(alloc, &places(alloc, area.lsas())?)?;
    for place in &places {
        push_network(lines, alloc, area, *place)?;
    }
    Ok(())
}

/// What is said of each transit network, by the network-LSAs in use: by area, prefix and Link State
/// ID.
///
/// # Errors
///
/// Memory ran out.
pub fn network_lines<A: Allocator + Copy>(
    alloc: A,
    database: &Database<A>,
) -> Result<Vec<NetworkLine<A>, A>, AllocError>
    ensures { IfOk result (λ lines. lines.items ≡ network_values (lists_of database.now)) }
{
    let areas = used_areas(alloc, database)?;
    let mut lines = Vec::new(alloc);
    for area in &areas {
        push_networks(&mut lines, alloc, area)?;
    }
    Ok(lines)
}

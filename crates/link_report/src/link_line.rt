//! What is said of each link.

ghost use Rattle.std.specs.Prelude.{◌≡◌, ◌+◌, ◌<◌, ◌++◌, ◌^◌, IfOk, OnOk, length};
ghost use Rattle.std.specs.List.{flat_map};
ghost use Rattle.lsdb.specs.Slots.{lists_of};
ghost use Rattle.link_report.specs.Areas.{used_areas};
ghost use Rattle.link_report.specs.Links.{link_at, link_value, link_values, links_in_areas, links_of_routers};

use crate::ages::{Ages, interfaces_by};
use crate::areas::{UsedArea, used_areas};
use crate::link_side::{
    InterfaceStub, costs_of, interface_numbered, net_of, network_of, owner_of, stub_of,
};
use interfaces::{Interface, addrs_of, far_ends};
use lsa_codec::{Addr, AreaId, Link, Prefix, RouterId};
use lsdb::Database;
use std::alloc::{AllocError, Allocator, Global};
use std::marker::Model;

/// A link of a router-LSA, with what is known of its other end. Contracts see it as the record of
/// its fields.
#[derive(Drop)]
pub struct LinkLine<A: Allocator = Global> {
    /// The router.
    pub router: RouterId,
    /// The area.
    pub area: AreaId,
    /// The link's number in the router-LSA, counted from 1.
    pub number: usize,
    /// The link.
    pub link: Link,
    /// What it costs to come back over the link: the metrics of the far ends of a point-to-point
    /// link, in rising order; 0 from a transit network that lists the router.
    pub back: Vec<u32, A>,
    /// The addresses of the far ends of a point-to-point link, in rising order.
    pub peers: Vec<Addr, A>,
    /// The prefix of a transit or stub network, where it is known.
    pub net: Option<Prefix>,
    /// The stub link of a point-to-point interface.
    pub stub: Option<InterfaceStub>,
    /// Where the link is the stub link of an interface, the number of the link before it.
    pub owner: Option<usize>,
}

impl<A: Allocator> Model for LinkLine<A> {
    ghost use Rattle.link_report.specs.Links.{LinkValue};

    ghost Value = { LinkValue };

    ghost view = { λ l. record {
      router = l.router;
      area = l.area;
      number = l.number;
      link = l.link;
      back = l.back.items;
      peers = l.peers.items;
      net = l.net;
      stub = l.stub;
      owner = l.owner;
    } };
}

impl<A: Allocator> LinkLine<A> {
    /// The link.
    pub fn link(&self) -> Link
        ensures { result ≡ self.now.link }
    {
        self.link
    }
}

/// What is said of a link of a router in an area: that of this interface, with this number of links
/// before it, the last of which is that of another interface.
fn link_line<A: Allocator + Copy>(
    alloc: A,
    area: &UsedArea<'_, A>,
    ages: Ages,
    router: RouterId,
    number: usize,
    before: Option<Interface>,
    own: Interface,
) -> Result<LinkLine<A>, AllocError>
    requires { number + 1 < 2 ^ 63 }
    ensures { IfOk result (λ line. line ≡ link_value ages area.now router number before own) }
{
    let neighbor = RouterId(own.link.id.0);
    let theirs = interfaces_by(alloc, area.database(), ages, area.area(), neighbor)?;
    let ends = far_ends(alloc, router, own, &theirs)?;
    let network = network_of(area.lsas(), own.link);
    let network = network.as_ref();
    Ok(LinkLine {
        router,
        area: area.area(),
        number: number + 1,
        link: own.link,
        back: costs_of(alloc, network, router, own.link, &ends)?,
        peers: addrs_of(alloc, &ends)?,
        net: net_of(network, own.link),
        stub: stub_of(number + 1, own),
        owner: owner_of(number, before),
    })
}

/// Adds what is said of each link of a router in an area, in the order of its live router-LSA.
fn push_links<A: Allocator + Copy>(
    lines: &mut Vec<LinkLine<A>, A>,
    alloc: A,
    area: &UsedArea<'_, A>,
    router: RouterId,
) -> Result<(), AllocError>
    ensures { OnOk result (lines.new.items ≡ lines.old.items ++ link_values router area.now) }
{
    let all = interfaces_by(alloc, area.database(), Ages::Live, area.area(), router)?;
    for number in 0..all.len() {
        let before = interface_numbered(number, &all);
        let own = all[number];
        lines.push(link_line(alloc, area, Ages::Live, router, number, before, own)?)?;
    }
    Ok(())
}

/// Adds what is said of each link of a router in all areas.
fn push_links_in_areas<A: Allocator + Copy>(
    lines: &mut Vec<LinkLine<A>, A>,
    alloc: A,
    areas: &[UsedArea<'_, A>],
    router: RouterId,
) -> Result<(), AllocError>
    ensures { OnOk result (lines.new.items
        ≡ lines.old.items ++ links_in_areas areas.now router) }
{
    for area in areas {
        push_links(lines, alloc, area, router)?;
    }
    Ok(())
}

/// What is said of each link of the live router-LSAs of some routers, by router, area and number.
///
/// For each link, it takes time in proportion to the number of the neighbor's links.
///
/// # Errors
///
/// Memory ran out.
pub fn link_lines<A: Allocator + Copy>(
    alloc: A,
    database: &Database<A>,
    routers: &[RouterId],
) -> Result<Vec<LinkLine<A>, A>, AllocError>
    ensures { IfOk result
        (λ lines. lines.items ≡ links_of_routers (lists_of database.now) routers.now) }
{
    let areas = used_areas(alloc, database)?;
    let mut lines = Vec::new(alloc);
    for router in routers {
        push_links_in_areas(&mut lines, alloc, &areas, *router)?;
    }
    Ok(lines)
}

/// What is said of link `number` of a router in an area, counted from 1, by router-LSAs of any age.
/// `None` where the router has no such link there.
///
/// # Errors
///
/// Memory ran out.
pub fn link_line_at<A: Allocator + Copy>(
    alloc: A,
    database: &Database<A>,
    area: AreaId,
    router: RouterId,
    number: u16,
) -> Result<Option<LinkLine<A>>, AllocError>
    ensures { IfOk result
        (λ line. line ≡ link_at (lists_of database.now) area router number) }
{
    let number = usize::from(number);
    let all = interfaces_by(alloc, database, Ages::Any, area, router)?;
    let Some(own) = interface_numbered(number, &all) else {
        return Ok(None);
    };
    let last = number.saturating_sub(1);
    let before = interface_numbered(last, &all);
    let used = UsedArea::of(alloc, database, area)?;
    let line = link_line(alloc, &used, Ages::Any, router, last, before, own)?;
    Ok(Some(line))
}

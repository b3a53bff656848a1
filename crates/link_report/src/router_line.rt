//! What is said of each router: its areas, its roles, and how many links it has.

ghost use Rattle.std.specs.Prelude.{◌≡◌, IfOk, count_by, filter};
ghost use Rattle.std.specs.List.{filter_map, flat_map};
ghost use Rattle.lsa_codec.specs.Links.{is_point_to_point, is_stub, is_transit, links_of};
ghost use Rattle.lsdb.specs.Slots.{lists_of};
ghost use Rattle.area_routes.specs.Attached.{is_attached};
ghost use Rattle.interfaces.specs.Routers.{router_lsa_of};
ghost use Rattle.link_report.specs.Areas.{area_ids};
ghost use Rattle.link_report.specs.Routers.{has_flag, router_value, router_values};

use crate::areas::area_ids;
use crate::lists::links_of;
use area_routes::is_attached;
use interfaces::router_lsa_of;
use lsa_codec::{AreaId, Link, LinkKind, RouterId, RouterView};
use lsdb::Database;
use routing_table::routers;
use std::alloc::{AllocError, Allocator, Global};
use std::marker::Model;

/// The bit of an area border router in the flags of a router-LSA (RFC 2328, A.4.2).
const BIT_B: u8 = 1;

/// The bit of an AS boundary router.
const BIT_E: u8 = 2;

/// A router that is attached to an area, by its live router-LSAs. Contracts see it as the record of
/// its fields.
#[derive(Drop)]
pub struct RouterLine<A: Allocator = Global> {
    /// The router.
    pub router: RouterId,
    /// The areas that it is attached to, in rising order.
    pub areas: Vec<AreaId, A>,
    /// Whether one of its LSAs has bit B: it is an area border router.
    pub is_abr: bool,
    /// Whether one of its LSAs has bit E: it is an AS boundary router.
    pub is_asbr: bool,
    /// How many point-to-point links it has.
    pub links: usize,
    /// How many links to transit networks it has.
    pub transit: usize,
    /// How many links to stub networks it has.
    pub stubs: usize,
}

impl<A: Allocator> Model for RouterLine<A> {
    ghost use Rattle.link_report.specs.Routers.{RouterValue};

    ghost Value = { RouterValue };

    ghost view = { λ r. record {
      router = r.router;
      areas = r.areas.items;
      is_abr = r.is_abr;
      is_asbr = r.is_asbr;
      links = r.links;
      transit = r.transit;
      stubs = r.stubs;
    } };
}

/// Those of some areas that a router is attached to.
fn areas_of_router<A: Allocator + Copy>(
    alloc: A,
    database: &Database<A>,
    areas: &[AreaId],
    router: RouterId,
) -> Result<Vec<AreaId, A>, AllocError>
    ensures { IfOk result (λ found. found.items
        ≡ filter (λ area. is_attached (lists_of database.now) area router) areas.now) }
{
    areas
        .iter()
        .copied()
        .filter(|area| is_attached(database, *area, router))
        .collect(alloc)
}

/// The live router-LSAs of a router in some areas.
fn router_lsas<'a, A: Allocator + Copy>(
    alloc: A,
    database: &'a Database<A>,
    areas: &[AreaId],
    router: RouterId,
) -> Result<Vec<RouterView<'a>, A>, AllocError>
    ensures { IfOk result (λ found. found.items
        ≡ filter_map (λ area. router_lsa_of (lists_of database.now) area router) areas.now) }
{
    areas
        .iter()
        .filter_map(|area| router_lsa_of(database, *area, router))
        .collect(alloc)
}

/// Whether one of some router-LSAs has a bit in its flags.
fn has_flag(lsas: &[RouterView<'_>], bit: u8) -> bool
    ensures { result ≡ has_flag bit lsas.now }
{
    lsas.iter().any(|lsa| lsa.flags() & bit != 0)
}

/// The links of some router-LSAs.
fn all_links<A: Allocator + Copy>(
    alloc: A,
    lsas: &[RouterView<'_>],
) -> Result<Vec<Link, A>, AllocError>
    ensures { IfOk result (λ links. links.items ≡ flat_map links_of lsas.now) }
{
    let mut links = Vec::new(alloc);
    for lsa in lsas {
        let mut more = links_of(alloc, lsa)?;
        links.append(&mut more)?;
    }
    Ok(links)
}

/// How many of some links are point-to-point.
fn count_links(links: &[Link]) -> usize
    ensures { result ≡ count_by (λ link. is_point_to_point link.kind) links.now }
{
    links
        .iter()
        .filter(|link| matches!(link.kind, LinkKind::PointToPoint))
        .count()
}

/// How many of some links lead to transit networks.
fn count_transit(links: &[Link]) -> usize
    ensures { result ≡ count_by (λ link. is_transit link.kind) links.now }
{
    links
        .iter()
        .filter(|link| matches!(link.kind, LinkKind::Transit))
        .count()
}

/// How many of some links lead to stub networks.
fn count_stubs(links: &[Link]) -> usize
    ensures { result ≡ count_by (λ link. is_stub link.kind) links.now }
{
    links.iter().filter(|link| link.kind.is_stub()).count()
}

/// What is said of a router, where these are the areas of the database.
fn router_line<A: Allocator + Copy>(
    alloc: A,
    database: &Database<A>,
    areas: &[AreaId],
    router: RouterId,
) -> Result<RouterLine<A>, AllocError>
    requires { areas.now ≡ area_ids (lists_of database.now) }
    ensures { IfOk result (λ line. line ≡ router_value (lists_of database.now) router) }
{
    let lsas = router_lsas(alloc, database, areas, router)?;
    let links = all_links(alloc, &lsas)?;
    Ok(RouterLine {
        router,
        areas: areas_of_router(alloc, database, areas, router)?,
        is_abr: has_flag(&lsas, BIT_B),
        is_asbr: has_flag(&lsas, BIT_E),
        links: count_links(&links),
        transit: count_transit(&links),
        stubs: count_stubs(&links),
    })
}

/// What is said of each router that is attached to an area, in order of Router ID.
///
/// # Errors
///
/// Memory ran out.
pub fn router_lines<A: Allocator + Copy>(
    alloc: A,
    database: &Database<A>,
) -> Result<Vec<RouterLine<A>, A>, AllocError>
    ensures { IfOk result (λ lines. lines.items ≡ router_values (lists_of database.now)) }
{
    let areas = area_ids(alloc, database)?;
    let attached = routers(alloc, database)?;
    let mut lines = Vec::new(alloc);
    for router in &attached {
        lines.push(router_line(alloc, database, &areas, *router)?)?;
    }
    Ok(lines)
}

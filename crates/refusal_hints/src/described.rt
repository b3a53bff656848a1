//! What LSAs of any age describe (RFC 2328, 12.1).

ghost use Rattle.std.specs.Prelude.{◌≡◌, ◌≤◌, ◌++◌, IfOk, OnOk, length};
ghost use Rattle.std.specs.List.{filter_map};
ghost use Rattle.lsdb.specs.Limits.{most_lsas_of_as};
ghost use Rattle.lsdb.specs.Slots.{lists_of};
ghost use Rattle.refusal_hints.specs.Described.{area_with, count_originated, described, id_if, is_described, is_originated, link_total};

use link_report::{area_ids, rising, router_lsa_of_any_age};
use lsa_codec::{AreaId, Lsa, RouterId};
use lsdb::{Database, Lsas, Section};
use std::alloc::{AllocError, Allocator};

/// The Link State ID of an LSA of a type.
fn id_if<A: Allocator + Copy>(kind: u8, lsa: &Lsa<A>) -> Option<u32>
    ensures { result ≡ id_if kind lsa.now }
{
    let key = lsa.key();
    if key.kind != kind {
        return None;
    }
    Some(key.id.0)
}

/// The Link State IDs of the LSAs of a type.
fn ids_among<A: Allocator + Copy>(
    alloc: A,
    kind: u8,
    lsas: Lsas<'_, A>,
) -> Result<Vec<u32, A>, AllocError>
    ensures { IfOk result (λ ids. ids.items ≡ filter_map (id_if kind) lsas.entry) }
{
    lsas.filter_map(|lsa| id_if(kind, lsa)).collect(alloc)
}

/// The Link State IDs of the LSAs of a type in some areas, in rising order, each once: of
/// router-LSAs the routers, of network-LSAs the addresses of the Designated Routers.
pub(crate) fn described<A: Allocator + Copy>(
    alloc: A,
    database: &Database<A>,
    kind: u8,
    areas: &[AreaId],
) -> Result<Vec<u32, A>, AllocError>
    ensures { IfOk result
        (λ ids. ids.items ≡ described (lists_of database.now) kind areas.now) }
{
    let mut ids = Vec::new(alloc);
    for area in areas {
        let mut more = ids_among(alloc, kind, database.lsas(Section::Area(*area)))?;
        ids.append(&mut more)?;
    }
    rising(alloc, &ids)
}

/// Whether an area has a router-LSA of a router.
pub(crate) fn is_described<A: Allocator + Copy>(
    database: &Database<A>,
    router: RouterId,
    area: AreaId,
) -> bool
    ensures { result ≡ is_described (lists_of database.now) router area }
{
    router_lsa_of_any_age(database, area, router).is_some()
}

/// The first area that has a router-LSA of a router.
pub(crate) fn area_with<A: Allocator + Copy>(
    alloc: A,
    database: &Database<A>,
    router: RouterId,
) -> Result<Option<AreaId>, AllocError>
    ensures { IfOk result (λ area. area ≡ area_with (lists_of database.now) router) }
{
    let areas = area_ids(alloc, database)?;
    Ok(
        areas
            .iter()
            .copied()
            .find(|area| is_described(database, router, *area)),
    )
}

/// The number of links of a router in an area.
pub(crate) fn link_total<A: Allocator + Copy>(
    database: &Database<A>,
    area: AreaId,
    router: RouterId,
) -> u16
    ensures { result ≡ link_total (lists_of database.now) area router }
{
    match router_lsa_of_any_age(database, area, router) {
        Some(lsa) => lsa.link_count(),
        None => 0,
    }
}

/// Whether a router originated an LSA of a type.
fn is_originated<A: Allocator + Copy>(kind: u8, router: RouterId, lsa: &Lsa<A>) -> bool
    ensures { result ≡ is_originated kind router lsa.now }
{
    let key = lsa.key();
    key.kind == kind && key.adv.0 == router.0
}

/// The number of LSAs of a type that a router originated.
pub(crate) fn count_originated<A: Allocator + Copy>(
    kind: u8,
    router: RouterId,
    lsas: Lsas<'_, A>,
) -> usize
    requires { length lsas ≤ most_lsas_of_as }
    ensures { result ≡ count_originated kind router lsas.entry }
{
    lsas.filter(|lsa| is_originated(kind, router, *lsa)).count()
}

//! AS boundary routers that routers announce into areas by RFC 2328, 12.4.3, and for which no
//! summary-LSA is there.

ghost use Rattle.std.specs.Prelude.{◌≡◌, ◌++◌, IfOk, OnOk, filter, map};
ghost use Rattle.std.specs.List.{filter_map};
ghost use Rattle.lsdb.specs.declared.section.Section.TheVariants.{Area};
ghost use Rattle.lsdb.specs.Lists.{lsas_of};
ghost use Rattle.lsdb.specs.Slots.{lists_of};
ghost use Rattle.external_routes.specs.Choose.{is_asbr_kind};
ghost use Rattle.external_routes.specs.Summaries.{is_announced_entry};
ghost use Rattle.audit_routes.specs.Missing.{asbr_by, asbr_name, asbrs_of, missing_asbr, missing_asbrs};

use crate::announced::announced_asbrs;
use crate::missing_at::missing_at;
use crate::ways::RouterWays;
use area_routes::{EntryKind, RouterEntry};
use audit_areas::push_some;
use audit_places::Place;
use audit_routers::RouterList;
use external_routes::preferred;
use link_report::rising;
use lsa_codec::{ASBR_SUMMARY_LSA, Addr, AreaId, Key, RouterId};
use lsa_names::LsaName;
use lsdb::{Database, Section};
use std::alloc::{AllocError, Allocator};

/// What the summary-LSA of a router for an AS boundary router is called.
fn asbr_name(area: AreaId, router: RouterId, asbr: RouterId) -> LsaName
    ensures { result ≡ asbr_name area router asbr }
{
    LsaName {
        area: Some(area),
        key: Key {
            kind: ASBR_SUMMARY_LSA,
            id: Addr(asbr.0),
            adv: router,
        },
        net: None,
    }
}

/// Whether a way to an AS boundary router is announced into an area (RFC 2328, 12.4.3).
fn is_announced_entry<A: Allocator + Copy>(area: AreaId, entry: &RouterEntry<A>) -> bool
    ensures { result ≡ is_announced_entry area entry.now }
{
    if entry.area == area {
        return false;
    }
    area != AreaId::BACKBONE || entry.kind == EntryKind::AsbrIntra
}

/// The place of a summary-LSA for a way to an AS boundary router, if the way is announced into the
/// area.
fn asbr_by<A: Allocator + Copy>(
    area: AreaId,
    router: RouterId,
    entry: &RouterEntry<A>,
) -> Option<Place<A>>
    ensures { result ≡ asbr_by area router entry.now }
{
    if !is_announced_entry(area, entry) {
        return None;
    }
    missing_at(asbr_name(area, router, entry.router), entry.cost)
}

/// The place of a summary-LSA for the preferred way to an AS boundary router, unless that router is
/// among these.
fn missing_asbr<A: Allocator + Copy>(
    area: AreaId,
    ways: &RouterWays<A>,
    asbrs: &RouterList<A>,
    asbr: RouterId,
) -> Option<Place<A>>
    ensures { result
        ≡ missing_asbr area ways.now.router asbrs.now ways.now.entries asbr }
{
    if asbrs.has(asbr) {
        return None;
    }
    let entry = preferred(ways.entries().as_slice(), asbr)?;
    asbr_by(area, ways.router(), entry)
}

/// Whether an entry is that of an AS boundary router.
fn is_of_asbr<A: Allocator + Copy>(entry: &RouterEntry<A>) -> bool
    ensures { result ≡ is_asbr_kind entry.now.kind }
{
    entry.kind != EntryKind::Border
}

/// The routers of the entries of AS boundary routers, one for each.
fn asbrs_among<A: Allocator + Copy>(
    alloc: A,
    entries: &[RouterEntry<A>],
) -> Result<Vec<RouterId, A>, AllocError>
    ensures { IfOk result (λ asbrs. asbrs.items
        ≡ map (λ e. e.router) (filter (λ e. is_asbr_kind e.kind) entries.now)) }
{
    entries
        .iter()
        .filter(|entry| is_of_asbr(entry))
        .map(|entry| entry.router)
        .collect(alloc)
}

/// The AS boundary routers that have an entry, in order.
fn asbrs_of<A: Allocator + Copy>(
    alloc: A,
    entries: &[RouterEntry<A>],
) -> Result<Vec<RouterId, A>, AllocError>
    ensures { IfOk result (λ asbrs. asbrs.items ≡ asbrs_of entries.now) }
{
    let asbrs = asbrs_among(alloc, entries)?;
    rising(alloc, &asbrs)
}

/// Adds the places of those of some AS boundary routers that a router does not announce into an
/// area, where it announces these.
fn push_missing<A: Allocator + Copy>(
    places: &mut Vec<Place<A>, A>,
    area: AreaId,
    ways: &RouterWays<A>,
    announced: &RouterList<A>,
    asbrs: &[RouterId],
) -> Result<(), AllocError>
    ensures { OnOk result (places.new.items ≡ places.old.items ++ filter_map
        (missing_asbr area ways.now.router announced.now ways.now.entries) asbrs.now) }
{
    for asbr in asbrs {
        push_some(places, missing_asbr(area, ways, announced, *asbr))?;
    }
    Ok(())
}

/// Adds the places of the AS boundary routers that a router does not announce into an area.
pub(crate) fn push_asbrs<A: Allocator + Copy>(
    alloc: A,
    places: &mut Vec<Place<A>, A>,
    database: &Database<A>,
    area: AreaId,
    ways: &RouterWays<A>,
) -> Result<(), AllocError>
    ensures { OnOk result (places.new.items ≡ places.old.items
        ++ missing_asbrs area ways.now (lsas_of (Area area) (lists_of database.now))) }
{
    let lsas = database.lsas(Section::Area(area));
    let announced = announced_asbrs(alloc, ways.router(), lsas)?;
    let asbrs = asbrs_of(alloc, ways.entries().as_slice())?;
    push_missing(places, area, ways, &announced, &asbrs)
}

//! Routers that LSAs name, and that no router-LSA describes.

ghost use Rattle.std.specs.Prelude.{◌≡◌, ◌∷◌, ◌++◌, List, IfOk, filter, None};
ghost use Rattle.lsdb.specs.Slots.{lists_of};
ghost use Rattle.audit_lsas.specs.declared.naming.Naming.{Naming as AnyNaming};
ghost use Rattle.audit_lsas.specs.Undescribed.{first_of_each, is_missing, is_of_last, missing_in, missing_place, missing_places, namings_in, undescribed_router_places};

use crate::naming::{Naming, namings_by};
use area_graph::used_lsas;
use audit_places::{Form, Place};
use link_report::{area_ids, rising, router_lsa_of_any_age};
use lsa_codec::{AreaId, RouterId};
use lsdb::{Database, Section};
use std::alloc::{AllocError, Allocator};

/// The namings by the LSAs in use of an area.
fn namings_in<A: Allocator + Copy>(
    alloc: A,
    database: &Database<A>,
    area: AreaId,
) -> Result<Vec<Naming, A>, AllocError>
    ensures { IfOk result
        (λ namings. namings.items ≡ namings_in (lists_of database.now) area) }
{
    let used = used_lsas(alloc, database.lsas(Section::Area(area)))?;
    let mut namings = Vec::new(alloc);
    for vertex in &used {
        let mut more = namings_by(alloc, database, area, vertex.lsa())?;
        namings.append(&mut more)?;
    }
    Ok(namings)
}

/// Whether an area has no router-LSA, of any age, of the router that is named, in either of two
/// databases.
fn is_missing<A: Allocator + Copy>(
    loaded: &Database<A>,
    now: &Database<A>,
    area: AreaId,
    naming: Naming,
) -> bool
    ensures { result ≡ is_missing (lists_of loaded.now) (lists_of now.now) area naming }
{
    router_lsa_of_any_age(now, area, naming.router).is_none()
        && router_lsa_of_any_age(loaded, area, naming.router).is_none()
}

/// The namings of routers that no router-LSA describes, in order.
fn all_missing<A: Allocator + Copy>(
    alloc: A,
    loaded: &Database<A>,
    now: &Database<A>,
    area: AreaId,
) -> Result<Vec<Naming, A>, AllocError>
    ensures { IfOk result (λ namings. namings.items
        ≡ filter (is_missing (lists_of loaded.now) (lists_of now.now) area)
        (namings_in (lists_of now.now) area)) }
{
    let namings = namings_in(alloc, now, area)?;
    namings
        .iter()
        .copied()
        .filter(|naming| is_missing(loaded, now, area, *naming))
        .collect(alloc)
}

/// Whether a naming is of the same router as the last one.
fn is_of_last(last: Option<RouterId>, naming: Naming) -> bool
    ensures { result ≡ is_of_last last naming }
{
    match last {
        Some(router) => router == naming.router,
        None => false,
    }
}

/// Adds a naming that follows those of the last router, unless it is of the same router, and
/// returns its router.
fn push_if_new<A: Allocator + Copy>(
    found: &mut Vec<Naming, A>,
    last: Option<RouterId>,
    naming: Naming,
) -> Result<Option<RouterId>, AllocError>
    ensures { IfOk result (λ next. (rest : List AnyNaming)
        → found.new.items ++ first_of_each next rest
        ≡ found.old.items ++ first_of_each last (naming ∷ rest)) }
{
    if is_of_last(last, naming) {
        return Ok(last);
    }
    found.push(naming)?;
    Ok(Some(naming.router))
}

/// Of some namings in order, the first of each router.
fn first_of_each<A: Allocator + Copy>(
    alloc: A,
    namings: &[Naming],
) -> Result<Vec<Naming, A>, AllocError>
    ensures { IfOk result (λ found. found.items ≡ first_of_each None namings.now) }
{
    let mut found = Vec::new(alloc);
    let mut last = None;
    for naming in namings {
        last = push_if_new(&mut found, last, *naming)?;
    }
    Ok(found)
}

/// The namings of routers that are missing in an area, each by the lowest router that names it.
fn missing_in<A: Allocator + Copy>(
    alloc: A,
    loaded: &Database<A>,
    now: &Database<A>,
    area: AreaId,
) -> Result<Vec<Naming, A>, AllocError>
    ensures { IfOk result (λ namings. namings.items
        ≡ missing_in (lists_of loaded.now) (lists_of now.now) area) }
{
    let missing = all_missing(alloc, loaded, now, area)?;
    let missing = rising(alloc, &missing)?;
    first_of_each(alloc, &missing)
}

/// The place of a naming.
fn missing_place<A: Allocator + Copy>(area: AreaId, naming: Naming) -> Place<A>
    ensures { result ≡ missing_place area naming }
{
    Place::of(Form::Undescribed {
        area,
        router: naming.router,
        named_by: naming.by,
    })
}

/// The places of the routers that are missing in an area.
fn missing_places<A: Allocator + Copy>(
    alloc: A,
    loaded: &Database<A>,
    now: &Database<A>,
    area: AreaId,
) -> Result<Vec<Place<A>, A>, AllocError>
    ensures { IfOk result (λ places. places.items
        ≡ missing_places (lists_of loaded.now) (lists_of now.now) area) }
{
    let missing = missing_in(alloc, loaded, now, area)?;
    missing
        .iter()
        .map(|naming| missing_place(area, *naming))
        .collect(alloc)
}

/// The routers that a live router-LSA names by a point-to-point link, or that a network-LSA in use
/// lists whose network has an edge, where the area has no router-LSA of the router, of any age, in
/// the database or in the one that was loaded: by area and router, each with the lowest router that
/// names it. What an edit removed is not meant.
///
/// # Errors
///
/// Memory ran out.
pub fn undescribed_router_places<A: Allocator + Copy>(
    alloc: A,
    loaded: &Database<A>,
    now: &Database<A>,
) -> Result<Vec<Place<A>, A>, AllocError>
    ensures { IfOk result (λ places. places.items
        ≡ undescribed_router_places (lists_of loaded.now) (lists_of now.now)) }
{
    let areas = area_ids(alloc, now)?;
    let mut places = Vec::new(alloc);
    for area in &areas {
        let mut more = missing_places(alloc, loaded, now, *area)?;
        places.append(&mut more)?;
    }
    Ok(places)
}

//! Summary-LSAs that border routers announce and that are not there.

ghost use Rattle.std.specs.Prelude.{◌≡◌, ◌++◌, IfOk, OnOk};
ghost use Rattle.std.specs.List.{flat_map};
ghost use Rattle.lsdb.specs.declared.section.Section.TheVariants.{Area};
ghost use Rattle.lsdb.specs.Lists.{lsas_of};
ghost use Rattle.lsdb.specs.Slots.{lists_of};
ghost use Rattle.audit_routes.specs.Missing.{any_not_default, missing_by_kind, missing_in, missing_in_stub, missing_places, summary_missing_places};

use crate::announced::{announced_nets, any_not_default};
use crate::bits::{BIT_B, has_bit_in};
use crate::missing_asbrs::push_asbrs;
use crate::missing_nets::push_nets;
use crate::refreshed::refreshed;
use crate::ways::{RouterWays, ways_of_all};
use audit_places::Place;
use audit_routers::border_routers;
use lsa_codec::{AreaId, Prefix};
use lsdb::{Database, Section};
use std::alloc::{AllocError, Allocator};
use std::collections::BTreeSet;

/// Whether a set has a prefix that is not that of the default destination.
fn has_network<A: Allocator + Copy>(
    alloc: A,
    nets: &BTreeSet<Prefix, A>,
) -> Result<bool, AllocError>
    ensures { IfOk result (λ has. has ≡ any_not_default nets.now.keys) }
{
    let all: Vec<Prefix, A> = nets.iter().copied().collect(alloc)?;
    Ok(any_not_default(&all))
}

/// Adds the places of what a router does not announce into a stub area, where it announces these
/// prefixes. It may announce its default route alone.
fn push_into_stub<A: Allocator + Copy>(
    alloc: A,
    places: &mut Vec<Place<A>, A>,
    area: AreaId,
    ways: &RouterWays<A>,
    nets: &BTreeSet<Prefix, A>,
) -> Result<(), AllocError>
    ensures { OnOk result (places.new.items ≡ places.old.items
        ++ missing_in_stub area ways.now nets.now.keys) }
{
    if !has_network(alloc, nets)? {
        return Ok(());
    }
    push_nets(places, area, ways, nets)
}

/// Adds the places of what a router does not announce into an area. Into a stub area it announces
/// no AS boundary routers.
fn push_by_kind<A: Allocator + Copy>(
    alloc: A,
    places: &mut Vec<Place<A>, A>,
    database: &Database<A>,
    area: AreaId,
    is_stub: bool,
    ways: &RouterWays<A>,
) -> Result<(), AllocError>
    ensures { OnOk result (places.new.items ≡ places.old.items
        ++ missing_by_kind area ways.now (lsas_of (Area area) (lists_of database.now)) is_stub) }
{
    let nets = announced_nets(alloc, ways.router(), database.lsas(Section::Area(area)))?;
    if is_stub {
        return push_into_stub(alloc, places, area, ways, &nets);
    }
    push_nets(places, area, ways, &nets)?;
    push_asbrs(alloc, places, database, area, ways)
}

/// Adds the places of what a router does not announce into an area where its router-LSA has bit B.
fn push_missing<A: Allocator + Copy>(
    alloc: A,
    places: &mut Vec<Place<A>, A>,
    database: &Database<A>,
    area: (AreaId, bool),
    ways: &RouterWays<A>,
) -> Result<(), AllocError>
    ensures { OnOk result (places.new.items ≡ places.old.items
        ++ missing_in (lists_of database.now) (record { id = area.0.0; is_stub = area.1 })
        ways.now) }
{
    if !has_bit_in(database, area.0, ways.router(), BIT_B) {
        return Ok(());
    }
    push_by_kind(alloc, places, database, area.0, area.1, ways)
}

/// Adds the places of what some routers do not announce into an area.
fn push_area<A: Allocator + Copy>(
    alloc: A,
    places: &mut Vec<Place<A>, A>,
    database: &Database<A>,
    area: (AreaId, bool),
    routers: &[RouterWays<A>],
) -> Result<(), AllocError>
    ensures { OnOk result (places.new.items ≡ places.old.items
        ++ flat_map (missing_in (lists_of database.now)
        (record { id = area.0.0; is_stub = area.1 })) routers.now) }
{
    for ways in routers {
        push_missing(alloc, places, database, area, ways)?;
    }
    Ok(())
}

/// The places of what the border routers of a database do not announce.
fn missing_places<A: Allocator + Copy>(
    alloc: A,
    database: &Database<A>,
) -> Result<Vec<Place<A>, A>, AllocError>
    ensures { IfOk result (λ places. places.items ≡ missing_places (lists_of database.now)) }
{
    let borders = border_routers(alloc, database)?;
    let routers = ways_of_all(alloc, database, borders.as_slice())?;
    let mut places = Vec::new(alloc);
    for i in 0..database.area_count() {
        push_area(alloc, &mut places, database, database.area(i), &routers)?;
    }
    Ok(places)
}

/// The summary-LSAs that border routers announce by RFC 2328, 12.4.3, and that are not there in the
/// database that a refresh gives, by area and router: for each router with bit B in the area's
/// router-LSA the prefixes, and then, into areas that are no stub areas, the AS boundary routers. A
/// router that announces into a stub area no prefix but the default destination lacks none there.
///
/// # Errors
///
/// Memory ran out.
pub fn summary_missing_places<A: Allocator + Copy>(
    alloc: A,
    database: &Database<A>,
) -> Result<Vec<Place<A>, A>, AllocError>
    ensures { IfOk result
        (λ places. places.items ≡ summary_missing_places (lists_of database.now)) }
{
    let after = refreshed(database)?;
    missing_places(alloc, &after)
}

//! Point-to-point links with other costs back.

ghost use Rattle.std.specs.Prelude.{◌≡◌, ◌+◌, ◌<◌, ◌++◌, ◌^◌, [], IfOk, OnOk, map};
ghost use Rattle.std.specs.List.{cons_option};
ghost use Rattle.audit_places.specs.Places.{unequal_cost};
ghost use Rattle.audit_links.specs.Unequal.{costs_over, has_other_cost, is_unequal, place_by, place_if_unequal, places_of_interfaces, shown_cost, unequal_costs};

use audit_areas::{AuditedArea, push_some};
use audit_places::{Cost, Form, Place};
use interfaces::{Interface, costs_back, far_ends_in, interfaces_in};
use lsa_codec::{AreaId, RouterId};
use std::alloc::{AllocError, Allocator};

/// Whether one of the costs back is another.
fn has_other_cost(cost: u16, back: &[u32]) -> bool
    ensures { result ≡ has_other_cost cost back.now }
{
    let cost = u32::from(cost);
    back.iter().any(|other| *other != cost)
}

/// Whether an interface of a router leads to a router of greater ID and has other costs back.
fn is_unequal(router: RouterId, own: Interface, back: &[u32]) -> bool
    ensures { result ≡ is_unequal router own back.now }
{
    router.0 < own.link.id.0 && has_other_cost(own.link.metric, back)
}

/// The costs back over an interface of a router, in rising order.
fn costs_over<A: Allocator + Copy>(
    alloc: A,
    area: &AuditedArea<'_, A>,
    router: RouterId,
    own: Interface,
) -> Result<Vec<u32, A>, AllocError>
    ensures { IfOk result (λ costs. costs.items ≡ costs_over area.now router own) }
{
    let ends = far_ends_in(alloc, area.database(), area.area(), router, own)?;
    costs_back(alloc, &ends)
}

/// Costs as places show them.
fn shown_costs<A: Allocator + Copy>(alloc: A, costs: &[u32]) -> Result<Vec<Cost, A>, AllocError>
    ensures { IfOk result (λ shown. shown.items ≡ map shown_cost costs.now) }
{
    costs.iter().map(|cost| Cost(*cost)).collect(alloc)
}

/// The place of an interface with this number of links before its own, and these costs back.
fn place_of<A: Allocator>(
    area: AreaId,
    router: RouterId,
    before: usize,
    own: Interface,
    back: Vec<Cost, A>,
) -> Place<A>
    requires { before + 1 < 2 ^ 63 }
    ensures { result ≡ unequal_cost area router (before + 1) (record { 0 = own.link.id.0 })
        own.link.metric back.items }
{
    Place::of(Form::Unequal {
        area,
        router,
        number: before + 1,
        to: RouterId(own.link.id.0),
        cost: own.link.metric,
        back,
    })
}

/// The place of an interface with this number of links before its own, if it leads to a router of
/// greater ID and has other costs back.
fn place_by<A: Allocator + Copy>(
    alloc: A,
    area: &AuditedArea<'_, A>,
    router: RouterId,
    before: usize,
    own: Interface,
    back: &[u32],
) -> Result<Option<Place<A>>, AllocError>
    requires { before + 1 < 2 ^ 63 }
    ensures { IfOk result (λ place. place ≡ place_by area.now router before own back.now) }
{
    if !is_unequal(router, own, back) {
        return Ok(None);
    }
    let back = shown_costs(alloc, back)?;
    Ok(Some(place_of(area.area(), router, before, own, back)))
}

/// Adds the place of an interface with this number of links before its own, if it has one.
fn push_place<A: Allocator + Copy>(
    places: &mut Vec<Place<A>, A>,
    alloc: A,
    area: &AuditedArea<'_, A>,
    router: RouterId,
    before: usize,
    own: Interface,
) -> Result<(), AllocError>
    requires { before + 1 < 2 ^ 63 }
    ensures { OnOk result (places.new.items ≡ places.old.items
        ++ cons_option (place_if_unequal area.now router (before, own)) []) }
{
    let back = costs_over(alloc, area, router, own)?;
    push_some(places, place_by(alloc, area, router, before, own, &back)?)
}

/// The places of interfaces of a router, by number.
fn places_of_interfaces<A: Allocator + Copy>(
    alloc: A,
    area: &AuditedArea<'_, A>,
    router: RouterId,
    interfaces: &[Interface],
) -> Result<Vec<Place<A>, A>, AllocError>
    ensures { IfOk result (λ places. places.items
        ≡ places_of_interfaces area.now router interfaces.now) }
{
    let mut places = Vec::new(alloc);
    for before in 0..interfaces.len() {
        push_place(&mut places, alloc, area, router, before, interfaces[before])?;
    }
    Ok(places)
}

/// The places of the point-to-point links of a router to routers of greater ID whose far ends have
/// other costs, by number.
pub(crate) fn unequal_costs<A: Allocator + Copy>(
    alloc: A,
    area: &AuditedArea<'_, A>,
    router: RouterId,
) -> Result<Vec<Place<A>, A>, AllocError>
    ensures { IfOk result (λ places. places.items ≡ unequal_costs area.now router) }
{
    let interfaces = interfaces_in(alloc, area.database(), area.area(), router)?;
    places_of_interfaces(alloc, area, router, &interfaces)
}

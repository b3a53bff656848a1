//! The places of `area-missing`, `abr-without-bit-b` and `unreached-router`.

ghost use Rattle.std.specs.Prelude.{◌≡◌, IfOk, length, nat_lt};
ghost use Rattle.area_routes.specs.Entries.{bit_b, flags_of, has_bit};
ghost use Rattle.lsdb.specs.Slots.{lists_of};
ghost use Rattle.audit_areas.specs.Areas.{routers_in};
ghost use Rattle.audit_topology.specs.RouterTests.{abr_without_bit_b_places, area_missing_places, has_bit_b, is_in_one_area, is_unreached, lacks_areas, lacks_bit_b, passes, places_that_pass, router_lsa_name, unreached_router_places};

use area_graph::Vertex;
use audit_areas::{AuditedArea, Finding, attached_count, is_border, is_linked, places_by_router};
use audit_places::{Form, Place};
use lsa_codec::{AreaId, Key, RouterId, RouterView};
use lsa_names::LsaName;
use lsdb::Database;
use std::alloc::{AllocError, Allocator};

/// The bit of an area border router in the flags of a router-LSA (RFC 2328, A.4.2).
const BIT_B: u8 = 1;

/// What is asked of the router-LSA of a router in an area.
#[derive(Clone, Copy, Debug, PartialEq, Eq)]
enum RouterTest {
    /// Whether it has bit B, and the router is linked and attached to this area alone.
    AreaMissing,
    /// Whether it lacks bit B, and the router is a border router.
    WithoutBitB,
    /// Whether the router has no edge in the area, which has another router.
    Unreached,
}

/// Whether a router-LSA has bit B.
fn has_flag_b(lsa: &RouterView<'_>) -> bool
    ensures { result ≡ has_bit bit_b (flags_of lsa.now) }
{
    lsa.flags() & BIT_B != 0
}

/// Whether the router-LSA of a router in an area has bit B.
fn has_bit_b<A: Allocator + Copy>(area: &AuditedArea<'_, A>, router: RouterId) -> bool
    ensures { result ≡ has_bit_b area.now router }
{
    match area.router_lsa(router) {
        Some(lsa) => has_flag_b(&lsa),
        None => false,
    }
}

/// Whether an area has several routers.
fn has_several_routers<A: Allocator + Copy>(area: &AuditedArea<'_, A>) -> bool
    ensures { result ≡ nat_lt 1 (length (routers_in area.now)) }
{
    area.routers().len() > 1
}

/// Whether a router is linked and attached to one area alone.
fn is_in_one_area<A: Allocator + Copy>(areas: &[AuditedArea<'_, A>], router: RouterId) -> bool
    ensures { result ≡ is_in_one_area areas.now router }
{
    attached_count(areas, router) == 1 && is_linked(areas, router)
}

/// Whether a router calls itself a border router in an area, and is linked and attached to one area
/// alone.
fn lacks_areas<A: Allocator + Copy>(
    areas: &[AuditedArea<'_, A>],
    area: &AuditedArea<'_, A>,
    router: RouterId,
) -> bool
    ensures { result ≡ lacks_areas areas.now area.now router }
{
    has_bit_b(area, router) && is_in_one_area(areas, router)
}

/// Whether a border router does not call itself one in an area.
fn lacks_bit_b<A: Allocator + Copy>(
    areas: &[AuditedArea<'_, A>],
    area: &AuditedArea<'_, A>,
    router: RouterId,
) -> bool
    ensures { result ≡ lacks_bit_b areas.now area.now router }
{
    !has_bit_b(area, router) && is_border(areas, router)
}

/// Whether a router has no edge in an area with another router.
fn is_unreached<A: Allocator + Copy>(area: &AuditedArea<'_, A>, router: RouterId) -> bool
    ensures { result ≡ is_unreached area.now router }
{
    has_several_routers(area) && !area.has_edge(Vertex::Router(router))
}

/// Whether the router-LSA of a router in an area passes a test.
fn passes<A: Allocator + Copy>(
    test: RouterTest,
    areas: &[AuditedArea<'_, A>],
    area: &AuditedArea<'_, A>,
    router: RouterId,
) -> bool
    ensures { result ≡ passes test areas.now area.now router }
{
    match test {
        RouterTest::AreaMissing => lacks_areas(areas, area, router),
        RouterTest::WithoutBitB => lacks_bit_b(areas, area, router),
        RouterTest::Unreached => is_unreached(area, router),
    }
}

/// The name of the router-LSA of a router in an area.
fn router_lsa_name(area: AreaId, router: RouterId) -> LsaName
    ensures { result ≡ router_lsa_name area router }
{
    LsaName {
        area: Some(area),
        key: Key::of_router(router),
        net: None,
    }
}

impl Finding for RouterTest {
    ghost use Rattle.audit_areas.specs.Areas.{routers_in};
    ghost use Rattle.audit_topology.specs.RouterTests.{lsas_that_pass};

    ghost finds = { lsas_that_pass };

    fn push_found<A: Allocator + Copy>(
        &self,
        places: &mut Vec<Place<A>, A>,
        _alloc: A,
        areas: &[AuditedArea<'_, A>],
        area: &AuditedArea<'_, A>,
        router: RouterId,
    ) -> Result<(), AllocError> {
        if !passes(*self, areas, area, router) {
            return Ok(());
        }
        let lsa = router_lsa_name(area.area(), router);
        places.push(Place::of(Form::Lsa(lsa)))?;
        Ok(())
    }
}

impl RouterTest {
    /// The router-LSAs below MaxAge that pass the test, by area and router.
    fn places<A: Allocator + Copy>(
        self,
        alloc: A,
        database: &Database<A>,
    ) -> Result<Vec<Place<A>, A>, AllocError>
        ensures { IfOk result
            (λ places. places.items ≡ places_that_pass self (lists_of database.now)) }
    {
        places_by_router(alloc, database, &self)
    }
}

/// The places of `area-missing`: the router-LSAs with bit B of linked routers that are attached to
/// one area.
///
/// # Errors
///
/// Memory ran out.
pub fn area_missing_places<A: Allocator + Copy>(
    alloc: A,
    database: &Database<A>,
) -> Result<Vec<Place<A>, A>, AllocError>
    ensures { IfOk result
        (λ places. places.items ≡ area_missing_places (lists_of database.now)) }
{
    RouterTest::AreaMissing.places(alloc, database)
}

/// The places of `abr-without-bit-b`: the router-LSAs without bit B of border routers.
///
/// # Errors
///
/// Memory ran out.
pub fn abr_without_bit_b_places<A: Allocator + Copy>(
    alloc: A,
    database: &Database<A>,
) -> Result<Vec<Place<A>, A>, AllocError>
    ensures { IfOk result
        (λ places. places.items ≡ abr_without_bit_b_places (lists_of database.now)) }
{
    RouterTest::WithoutBitB.places(alloc, database)
}

/// The places of `unreached-router`: the router-LSAs of routers without an edge in the area, where
/// it has another router.
///
/// # Errors
///
/// Memory ran out.
pub fn unreached_router_places<A: Allocator + Copy>(
    alloc: A,
    database: &Database<A>,
) -> Result<Vec<Place<A>, A>, AllocError>
    ensures { IfOk result
        (λ places. places.items ≡ unreached_router_places (lists_of database.now)) }
{
    RouterTest::Unreached.places(alloc, database)
}

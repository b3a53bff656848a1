//! AS-external-LSAs of routers that do not call themselves AS boundary routers.

ghost use Rattle.std.specs.Prelude.{◌≡◌, IfOk};
ghost use Rattle.lsdb.specs.Slots.{lists_of};
ghost use Rattle.audit_lsas.specs.Boundary.{external_without_bit_e_places, inner_among, inner_routers, is_boundary, is_boundary_in};

use crate::found::lsa_places;
use crate::lsa_test::LsaTest;
use crate::scope::AreaScope;
use audit_places::Place;
use audit_routers::{RouterList, linked_routers};
use interfaces::router_lsa_of;
use link_report::area_ids;
use lsa_codec::{AreaId, LS_INFINITY, Lsa, RouterId};
use lsdb::Database;
use std::alloc::{AllocError, Allocator};
use std::marker::Model;

/// The bit of an AS boundary router in the flags of a router-LSA (RFC 2328, A.4.2).
const BIT_E: u8 = 2;

/// Whether the live router-LSA of a router in an area has bit E.
fn is_boundary_in<A: Allocator + Copy>(
    database: &Database<A>,
    router: RouterId,
    area: AreaId,
) -> bool
    ensures { result ≡ is_boundary_in (lists_of database.now) router area }
{
    match router_lsa_of(database, area, router) {
        Some(lsa) => lsa.flags() & BIT_E != 0,
        None => false,
    }
}

/// Whether a live router-LSA of a router in one of some areas has bit E.
fn is_boundary<A: Allocator + Copy>(
    database: &Database<A>,
    areas: &[AreaId],
    router: RouterId,
) -> bool
    ensures { result ≡ is_boundary (lists_of database.now) areas.now router }
{
    areas
        .iter()
        .any(|area| is_boundary_in(database, router, *area))
}

/// Those of some routers of which no live router-LSA in one of some areas has bit E.
fn inner_among<A: Allocator + Copy>(
    alloc: A,
    database: &Database<A>,
    areas: &[AreaId],
    routers: &[RouterId],
) -> Result<Vec<RouterId, A>, AllocError>
    ensures { IfOk result (λ inner. inner.items
        ≡ inner_among (lists_of database.now) areas.now routers.now) }
{
    routers
        .iter()
        .copied()
        .filter(|router| !is_boundary(database, areas, *router))
        .collect(alloc)
}

/// The linked routers without bit E.
fn inner_routers<A: Allocator + Copy>(
    alloc: A,
    database: &Database<A>,
) -> Result<RouterList<A>, AllocError>
    ensures { IfOk result (λ routers. routers ≡ inner_routers (lists_of database.now)) }
{
    let areas = area_ids(alloc, database)?;
    let linked = linked_routers(alloc, database)?;
    let inner = inner_among(alloc, database, &areas, linked.as_slice())?;
    Ok(RouterList::in_order(inner))
}

/// The test of `external-without-bit-e`, with the linked routers without bit E. Contracts see it as
/// these.
#[derive(Drop)]
struct ExternalOf<A: Allocator> {
    routers: RouterList<A>,
}

impl<A: Allocator> Model for ExternalOf<A> {
    ghost use Rattle.std.specs.Prelude.{List};
    ghost use Rattle.lsa_codec.specs.declared.address.RouterId.{RouterId as AnyRouter};

    ghost Value = { List AnyRouter };

    ghost view = { λ e. e.routers };
}

impl<B: Allocator + Copy> LsaTest for ExternalOf<B> {
    ghost use Rattle.audit_lsas.specs.Boundary.{is_external_of};

    ghost passes_as = { is_external_of };

    fn passes<A: Allocator + Copy>(&self, _scope: Option<AreaScope>, lsa: &Lsa<A>) -> bool {
        let Some(external) = lsa.external() else {
            return false;
        };
        !lsa.at_max_age() && external.metric() != LS_INFINITY && self.routers.has(lsa.key().adv)
    }
}

/// The live AS-external-LSAs of linked routers of which no live router-LSA has bit E, with another
/// metric than LSInfinity (RFC 2328, 16.4 and A.4.2).
///
/// # Errors
///
/// Memory ran out.
pub fn external_without_bit_e_places<A: Allocator + Copy>(
    alloc: A,
    database: &Database<A>,
) -> Result<Vec<Place<A>, A>, AllocError>
    ensures { IfOk result
        (λ places. places.items ≡ external_without_bit_e_places (lists_of database.now)) }
{
    let routers = inner_routers(alloc, database)?;
    lsa_places(alloc, &ExternalOf { routers }, database)
}

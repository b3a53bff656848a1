//! Whether some area of a database passes a test.

ghost use Rattle.std.specs.Prelude.{◌≡◌, Bool};
ghost use Rattle.std.specs.List.{list_any};
ghost use Rattle.lsa_codec.specs.declared.address.AreaId.{AreaId as AnyArea};
ghost use Rattle.lsdb.specs.Lists.{AreaHead, areas_of};
ghost use Rattle.lsdb.specs.Slots.{lists_of};
ghost use Rattle.external_routes.specs.Flooding.{is_attached_outside_stubs};
ghost use Rattle.external_routes.specs.Summaries.{is_attached_elsewhere, is_stub_area};

use area_routes::is_attached;
use lsa_codec::{AreaId, RouterId};
use lsdb::Database;
use std::alloc::Allocator;

/// Whether an area of a database passes a test, which takes the area and whether it is a stub area.
fn any_area<A: Allocator + Copy, F: Fn(AreaId, bool) -> bool>(
    database: &Database<A>,
    test: F,
) -> bool
    requires { F.IsAlwaysCallable test }
    ensures { (passes : AreaHead → Bool)
        → ((area : AnyArea) (is_stub answer : Bool) → F.post test area is_stub answer
        → answer ≡ passes (record { id = area.0; is_stub = is_stub }))
        → result ≡ list_any passes (areas_of (lists_of database.now)) }
{
    for i in 0..database.area_count() {
        let (area, is_stub) = database.area(i);
        if test(area, is_stub) {
            return true;
        }
    }
    false
}

/// Whether an area of the database is a stub area (RFC 2328, 3.6).
pub(crate) fn is_stub_area<A: Allocator + Copy>(database: &Database<A>, area: AreaId) -> bool
    ensures { result ≡ is_stub_area (lists_of database.now) area }
{
    any_area(database, |other, is_stub| is_stub && other == area)
}

/// Whether a router is attached to an area other than this one.
pub(crate) fn is_attached_elsewhere<A: Allocator + Copy>(
    database: &Database<A>,
    area: AreaId,
    router: RouterId,
) -> bool
    ensures { result ≡ is_attached_elsewhere (lists_of database.now) area router }
{
    any_area(
        database,
        |other, _is_stub| other != area && is_attached(database, other, router),
    )
}

/// Whether a router is attached to an area that is not a stub area. AS-external-LSAs are flooded to
/// no other router (RFC 2328, 3.6).
pub(crate) fn is_attached_outside_stubs<A: Allocator + Copy>(
    database: &Database<A>,
    router: RouterId,
) -> bool
    ensures { result ≡ is_attached_outside_stubs (lists_of database.now) router }
{
    any_area(
        database,
        |area, is_stub| !is_stub && is_attached(database, area, router),
    )
}

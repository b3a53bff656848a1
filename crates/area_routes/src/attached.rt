//! The areas that a router is attached to.

ghost use Rattle.std.specs.Prelude.{◌≡◌};
ghost use Rattle.lsdb.specs.Slots.{lists_of};
ghost use Rattle.area_routes.specs.Attached.{is_attached};

use lsa_codec::{AreaId, Key, RouterId};
use lsdb::{Database, Section};
use std::alloc::Allocator;

/// Whether a router is attached to an area: the area has the router's router-LSA, and it is not at
/// MaxAge (RFC 2328, 12.4.1). A router is not attached to an area that the database lacks.
pub fn is_attached<A: Allocator + Copy>(
    database: &Database<A>,
    area: AreaId,
    router: RouterId,
) -> bool
    ensures { result ≡ is_attached (lists_of database.now) area router }
{
    let Some(slot) = database.find(Section::Area(area), Key::of_router(router)) else {
        return false;
    };
    match database.get(slot) {
        Some(lsa) => !lsa.at_max_age(),
        None => false,
    }
}

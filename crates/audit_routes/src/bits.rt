//! Bits of the router-LSAs of routers.

ghost use Rattle.std.specs.Prelude.{◌≡◌};
ghost use Rattle.lsdb.specs.Slots.{lists_of};
ghost use Rattle.audit_routes.specs.Bits.{has_bit_in};

use interfaces::router_lsa_of;
use lsa_codec::{AreaId, RouterId};
use lsdb::Database;
use std::alloc::Allocator;

/// The bit of an area border router in the flags of a router-LSA (RFC 2328, A.4.2).
pub(crate) const BIT_B: u8 = 1;

/// The bit of an AS boundary router.
pub(crate) const BIT_E: u8 = 2;

/// Whether the live router-LSA of a router in an area has a bit. It takes no memory.
pub(crate) fn has_bit_in<A: Allocator + Copy>(
    database: &Database<A>,
    area: AreaId,
    router: RouterId,
    bit: u8,
) -> bool
    ensures { result ≡ has_bit_in (lists_of database.now) area router bit }
{
    match router_lsa_of(database, area, router) {
        Some(lsa) => lsa.flags() & bit != 0,
        None => false,
    }
}

//! Areas to which a router is attached.

use area_routes::is_attached;
use lsa_codec::{AreaId, RouterId};
use lsdb::Database;
use std::alloc::Global;
use std::test::*;
use test_support::{R1, R2};

/// The stub area 0.0.0.1 with the router-LSA of 1.1.1.1, and the area 0.0.0.3 with it at MaxAge.
const DUMP: &[u8] = &[
    0x4f, 0x53, 0x57, 0x50, 1, 2, //
    0, 0, 0, 1, 1, 0, 1, //
    0x80, 0x64, 2, 1, 1, 1, 1, 1, 1, 1, 1, 1, 0x80, 0, 0, 1, 0x33, 0x28, 0, 24, 0, 0, 0, 0, //
    0, 0, 0, 3, 0, 0, 1, //
    0x0e, 0x10, 2, 1, 1, 1, 1, 1, 1, 1, 1, 1, 0x80, 0, 0, 1, 0x33, 0x28, 0, 24, 0, 0, 0, 0, //
    0, 0,
];

/// The bytes of the dump. The function has no clauses, so that the prover knows nothing of them.
fn dump() -> &'static [u8] {
    DUMP
}

/// Whether a router is attached to an area of the dump.
fn attached(alloc: Global, area: u32, router: u32) -> Result<bool, Fail> {
    let database = Database::load(alloc, dump())?;
    Ok(is_attached(&database, AreaId(area), RouterId(router)))
}

#[test]
fn attached_where_the_router_lsa_is_live(rt: HostRuntime) -> Result<(), Fail> {
    assert!(rt; attached(rt.alloc(), 1, R1)?);
    assert!(rt; !attached(rt.alloc(), 2, R1)?);
    assert!(rt; !attached(rt.alloc(), 3, R1)?);
    assert!(rt; !attached(rt.alloc(), 1, R2)?);
    Ok(())
}

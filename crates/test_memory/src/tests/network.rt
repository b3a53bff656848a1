//! What is made on the network. These functions have no clauses, so that the prover knows nothing
//! of what they answer, nor of the bytes that are loaded.

use edit_script::Edit;
use lsa_codec::{AreaId, RouterId};
use lsdb::Database;
use std::alloc::Global;
use std::test::*;
use test_support::{FailingAlloc, LsaList, NETWORK, R1, R2, dump_of};

/// The router of the tables, which is attached to both areas.
pub(super) const ROUTER: RouterId = RouterId(R1);

/// Another router of the backbone.
pub(super) const OTHER: RouterId = RouterId(R2);

/// The bytes of the network.
pub(super) fn network() -> &'static [u8] {
    NETWORK
}

/// The database of the network.
pub(super) fn database_of(failing: &FailingAlloc) -> Result<Database<&FailingAlloc>, Fail> {
    Ok(Database::load(failing, network())?)
}

/// The database of an area with 24 routers without links, of which a tree reaches one.
pub(super) fn lonely_database_of(
    alloc: Global,
    failing: &FailingAlloc,
) -> Result<Database<&FailingAlloc>, Fail> {
    let mut routers = LsaList::new(alloc);
    for number in 0..24 {
        routers.router_of(1, R1.wrapping_add(number), 0, &[])?;
    }
    let dump = dump_of(alloc, &[(0, routers)], &LsaList::new(alloc))?;
    Ok(Database::load(failing, &dump)?)
}

/// Another cost of the link of 1.1.1.1 to the network 10.5.0.2.
pub(super) fn cost(metric: u16) -> Edit {
    Edit::Cost {
        area: AreaId(0),
        router: ROUTER,
        link: 1,
        metric,
    }
}

/// An edit of a link that 1.1.1.1 has not.
pub(super) fn no_link() -> Edit {
    Edit::DropLink {
        area: AreaId(0),
        router: ROUTER,
        link: 0,
    }
}

//! Router-LSAs of an area, live ones or those of any age.

ghost use Rattle.std.specs.Prelude.{◌≡◌, IfOk};
ghost use Rattle.lsdb.specs.Slots.{lists_of};
ghost use Rattle.link_report.specs.AnyAge.{interfaces_by, router_lsa_of_any_age};

use interfaces::{Interface, interfaces_in, interfaces_of};
use lsa_codec::{AreaId, Key, RouterId, RouterView};
use lsdb::{Database, Section};
use std::alloc::{AllocError, Allocator};

/// Which router-LSAs count.
#[derive(Clone, Copy, Debug, PartialEq, Eq)]
pub(crate) enum Ages {
    /// Those below MaxAge, which routers use.
    Live,
    /// All, as edits change them.
    Any,
}

/// The router-LSA of a router in an area, whatever its age, where there is one.
///
/// It takes no memory, and time logarithmic in the number of LSAs of the area.
pub fn router_lsa_of_any_age<A: Allocator + Copy>(
    database: &Database<A>,
    area: AreaId,
    router: RouterId,
) -> Option<RouterView<'_>>
    ensures { result ≡ router_lsa_of_any_age (lists_of database.now) area router }
{
    let slot = database.find(Section::Area(area), Key::of_router(router))?;
    let lsa = database.get(slot)?;
    lsa.router()
}

/// The interfaces of a router in an area, by its router-LSA of any age.
fn interfaces_of_any_age<A: Allocator + Copy>(
    alloc: A,
    database: &Database<A>,
    area: AreaId,
    router: RouterId,
) -> Result<Vec<Interface, A>, AllocError>
    ensures { IfOk result (λ found. found.items
        ≡ interfaces_by Ages.Any (lists_of database.now) area router) }
{
    match router_lsa_of_any_age(database, area, router) {
        Some(lsa) => interfaces_of(alloc, &lsa),
        None => Ok(Vec::new(alloc)),
    }
}

/// The interfaces of a router in an area, in the order of its links; none where it has no
/// router-LSA there that counts.
pub(crate) fn interfaces_by<A: Allocator + Copy>(
    alloc: A,
    database: &Database<A>,
    ages: Ages,
    area: AreaId,
    router: RouterId,
) -> Result<Vec<Interface, A>, AllocError>
    ensures { IfOk result (λ found. found.items
        ≡ interfaces_by ages (lists_of database.now) area router) }
{
    match ages {
        Ages::Live => interfaces_in(alloc, database, area, router),
        Ages::Any => interfaces_of_any_age(alloc, database, area, router),
    }
}

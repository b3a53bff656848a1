//! A router's LSA in an area, and the interfaces that it describes.

ghost use Rattle.std.specs.Prelude.{◌≡◌, IfOk, option_map};
ghost use Rattle.lsdb.specs.Slots.{lists_of};
ghost use Rattle.interfaces.specs.Routers.{router_lsa_of, interfaces_in};

use crate::interface::{Interface, interfaces_of};
use lsa_codec::{AreaId, Key, Lsa, RouterId, RouterView};
use lsdb::{Database, Section};
use std::alloc::{AllocError, Allocator};

/// The LSA below MaxAge with the key of a router in an area.
fn live_lsa_of<A: Allocator + Copy>(
    database: &Database<A>,
    area: AreaId,
    router: RouterId,
) -> Option<&Lsa<A>>
    ensures { option_map (λ lsa. lsa.now) result
        ≡ router_lsa_of (lists_of database.now) area router }
{
    let slot = database.find(Section::Area(area), Key::of_router(router))?;
    let lsa = database.get(slot)?;
    if lsa.at_max_age() {
        return None;
    }
    Some(lsa)
}

/// The router-LSA of a router in an area, where there is one below MaxAge.
///
/// It takes no memory, and time logarithmic in the number of LSAs of the area.
pub fn router_lsa_of<A: Allocator + Copy>(
    database: &Database<A>,
    area: AreaId,
    router: RouterId,
) -> Option<RouterView<'_>>
    ensures { result ≡ router_lsa_of (lists_of database.now) area router }
{
    let lsa = live_lsa_of(database, area, router)?;
    lsa.router()
}

/// The interfaces of a router in an area, one for each link of its router-LSA, in the order of the
/// links. There are none where the area has no router-LSA of the router below MaxAge.
///
/// # Errors
///
/// Memory ran out.
pub fn interfaces_in<A: Allocator + Copy>(
    alloc: A,
    database: &Database<A>,
    area: AreaId,
    router: RouterId,
) -> Result<Vec<Interface, A>, AllocError>
    ensures { IfOk result (λ found. found.items
        ≡ interfaces_in (lists_of database.now) area router) }
{
    match router_lsa_of(database, area, router) {
        Some(lsa) => interfaces_of(alloc, &lsa),
        None => Ok(Vec::new(alloc)),
    }
}

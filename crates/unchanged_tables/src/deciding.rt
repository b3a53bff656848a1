//! Whether the routing table of a router stays through a change of one LSA.

ghost use Rattle.std.specs.Prelude.{◌≡◌, true, Some};
ghost use Rattle.std.specs.Bool.{OnTrue};
ghost use Rattle.lsdb.specs.Lists.{IsDatabase};
ghost use Rattle.lsdb.specs.Slots.{lists_of, put};
ghost use Rattle.routing_table.specs.AreasTrees.{AreOfDatabase};
ghost use Rattle.routing_table.specs.Tables.{table_in};
ghost use Rattle.unchanged_tables.specs.Steady.{IsElsewhere, is_foreign};

use crate::distances::DistancesFrom;
use crate::steady::is_steady_lsa;
use area_routes::is_attached;
use lsa_codec::{Key, Lsa, NETWORK_LSA, ROUTER_LSA, RouterId};
use lsdb::{Database, SlotId};
use routing_table::KeptTrees;
use std::alloc::Allocator;

/// Whether an LSA is a router-LSA or network-LSA, and not the router's own router-LSA.
fn is_foreign<A: Allocator + Copy>(router: RouterId, lsa: &Lsa<A>) -> bool
    ensures { OnTrue result (is_foreign router lsa.now ≡ true) }
{
    let key = lsa.key();
    (key.kind == ROUTER_LSA || key.kind == NETWORK_LSA) && key != Key::of_router(router)
}

/// Whether both of two LSAs are foreign in this sense.
fn are_foreign<A: Allocator + Copy>(router: RouterId, before: &Lsa<A>, after: &Lsa<A>) -> bool
    ensures { OnTrue result (IsElsewhere router before.now after.now) }
{
    is_foreign(router, before) && is_foreign(router, after)
}

/// Whether the routing table of a router is known to be the same before and after a change of one
/// LSA, without a new tree. The database is the one after the change, `before` is the LSA that was
/// at the place, and the trees are those of the database before. It takes no memory.
///
/// It is known in two cases. In an area to which the router is not attached, the LSA is a
/// router-LSA or network-LSA of another router. In any other area, the router's tree is kept, and
/// the only changes that matter to routes are metrics of links over which no path of least cost
/// leads, before or after. `false` allows no conclusion.
pub fn is_unchanged<A: Allocator + Copy>(
    trees: &KeptTrees<A>,
    database: &Database<A>,
    router: RouterId,
    slot: SlotId,
    before: &Lsa<A>,
) -> bool
    requires sound { IsDatabase (lists_of (put database.now slot (Some before.now))) }
    requires trees { AreOfDatabase (lists_of (put database.now slot (Some before.now))) trees.now }
    ensures { result ≡ true → table_in (lists_of database.now) router
        ≡ table_in (lists_of (put database.now slot (Some before.now))) router }
{
    // Its invariant is needed: the IDs of its areas differ.
    database.assert_valid();
    if slot.section >= database.area_count() {
        return false;
    }
    let (area, _is_stub) = database.area(slot.section);
    let Some(after) = database.get(slot) else {
        return false;
    };
    if !is_attached(database, area, router) {
        return are_foreign(router, before, after);
    }
    let Some(kept) = trees.in_area(area) else {
        return false;
    };
    let Some(distances) = DistancesFrom::of(kept, router) else {
        return false;
    };
    is_steady_lsa(&distances, before, after)
}

//! The routers that are attached to areas.

ghost use Rattle.std.specs.Prelude.{◌≡◌, ◌++◌, [], List, IfOk, OnOk};
ghost use Rattle.std.specs.List.{cons_option, filter_map};
ghost use Rattle.lsa_codec.specs.declared.address.RouterId.{RouterId as AnyRouter};
ghost use Rattle.lsdb.specs.Slots.{lists_of};
ghost use Rattle.area_graph.specs.Rising.{rising};
ghost use Rattle.lsa_codec.specs.Order.{router_cmp};
ghost use Rattle.routing_table.specs.Routers.{attached_routers, live_router};

use lsa_codec::{Lsa, ROUTER_LSA, RouterId};
use lsdb::{Database, Lsas, Section};
use std::alloc::{AllocError, Allocator};
use std::collections::BTreeSet;

/// The routers that are attached to areas: those of the router-LSAs of all areas that are not at
/// MaxAge (RFC 2328, 12.4.1). They stand in rising order, each once.
///
/// # Errors
///
/// Memory ran out.
pub fn routers<A: Allocator + Copy>(
    alloc: A,
    database: &Database<A>,
) -> Result<Vec<RouterId, A>, AllocError>
    ensures { IfOk result (λ routers. routers.items ≡ attached_routers (lists_of database.now)) }
{
    let mut found = BTreeSet::new(alloc);
    for i in 0..database.area_count() {
        let (area, _is_stub) = database.area(i);
        add_routers(&mut found, database.lsas(Section::Area(area)))?;
    }
    found.into_iter().collect(alloc)
}

/// Adds the routers of the live router-LSAs.
fn add_routers<A: Allocator + Copy>(
    found: &mut BTreeSet<RouterId, A>,
    lsas: Lsas<'_, A>,
) -> Result<(), AllocError>
    ensures { OnOk result ((before : List AnyRouter) → found.old.keys ≡ rising router_cmp before
        → found.new.keys ≡ rising router_cmp (before ++ filter_map live_router lsas.entry)) }
{
    for lsa in lsas {
        add_router(found, lsa)?;
    }
    Ok(())
}

/// Adds the router of an LSA, if it is a live router-LSA.
fn add_router<A: Allocator + Copy>(
    found: &mut BTreeSet<RouterId, A>,
    lsa: &Lsa<A>,
) -> Result<(), AllocError>
    ensures { OnOk result ((before : List AnyRouter) → found.old.keys ≡ rising router_cmp before
        → found.new.keys ≡ rising router_cmp (before ++ cons_option (live_router lsa.now) [])) }
{
    if let Some(router) = live_router(lsa) {
        found.insert(router)?;
    }
    Ok(())
}

/// The router of a router-LSA that is not at MaxAge.
fn live_router<A: Allocator + Copy>(lsa: &Lsa<A>) -> Option<RouterId>
    ensures { result ≡ live_router lsa.now }
{
    let key = lsa.key();
    if lsa.at_max_age() || key.kind != ROUTER_LSA {
        return None;
    }
    Some(RouterId(key.id.0))
}

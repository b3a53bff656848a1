//! AS-external-LSAs whose forwarding addresses no router has a route to.

ghost use Rattle.std.specs.Prelude.{◌≡◌, IfOk};
ghost use Rattle.std.specs.List.{list_any};
ghost use Rattle.lsdb.specs.declared.section.Section.TheVariants.{AsWide};
ghost use Rattle.lsdb.specs.Lists.{lsas_of};
ghost use Rattle.lsdb.specs.Slots.{lists_of};
ghost use Rattle.external_routes.specs.Choose.{covers};
ghost use Rattle.audit_routes.specs.ForwardUnreached.{any_covers, forward_unreached_places, forwarded_to, is_forwarded, is_unreached, unreached_place};
ghost use Rattle.audit_routes.specs.InOrder.{found_at, found_in_order};

use crate::in_order::{keys_in_order, lsa_with_key};
use crate::inside::reached_nets;
use audit_areas::push_some;
use audit_places::{Form, Place};
use lsa_codec::{Addr, Key, LS_INFINITY, Lsa, Prefix};
use lsa_names::LsaName;
use lsdb::{Database, Section};
use std::alloc::{AllocError, Allocator};

/// Whether a prefix covers an address.
fn covers(net: Prefix, addr: Addr) -> bool
    ensures { result ≡ covers net addr }
{
    addr.0 & net.mask() == net.addr().0
}

/// Whether one of some prefixes covers an address.
fn any_covers(nets: &[Prefix], addr: Addr) -> bool
    ensures { result ≡ any_covers nets.now addr }
{
    nets.iter().any(|net| covers(*net, addr))
}

/// The forwarding address of an LSA, if it is an AS-external-LSA that is live, has a metric below
/// LSInfinity, and has one.
fn forwarded_to<A: Allocator + Copy>(lsa: &Lsa<A>) -> Option<Addr>
    ensures { result ≡ forwarded_to lsa.now }
{
    let view = lsa.external()?;
    if lsa.at_max_age() || view.metric() >= LS_INFINITY {
        return None;
    }
    let forward = view.forward();
    if forward.0 == 0 {
        return None;
    }
    Some(forward)
}

/// Whether an LSA has such a forwarding address.
fn is_forwarded<A: Allocator + Copy>(lsa: &Lsa<A>) -> bool
    ensures { result ≡ is_forwarded lsa.now }
{
    forwarded_to(lsa).is_some()
}

/// Whether some LSA of AS scope has one.
fn any_forwarded<A: Allocator + Copy>(database: &Database<A>) -> bool
    ensures { result ≡ list_any is_forwarded (lsas_of AsWide (lists_of database.now)) }
{
    database.lsas(Section::AsWide).any(|lsa| is_forwarded(lsa))
}

/// Whether an LSA has such a forwarding address, and none of some prefixes covers it.
fn is_unreached<A: Allocator + Copy>(nets: &[Prefix], lsa: &Lsa<A>) -> bool
    ensures { result ≡ is_unreached nets.now lsa.now }
{
    match forwarded_to(lsa) {
        Some(addr) => !any_covers(nets, addr),
        None => false,
    }
}

/// The place of such an LSA.
fn unreached_place<A: Allocator + Copy>(nets: &[Prefix], lsa: &Lsa<A>) -> Option<Place<A>>
    ensures { result ≡ unreached_place nets.now lsa.now }
{
    if !is_unreached(nets, lsa) {
        return None;
    }
    Some(Place::of(Form::Lsa(LsaName::of(None, lsa))))
}

/// The place of the LSA with a key.
fn place_at<A: Allocator + Copy>(
    database: &Database<A>,
    nets: &[Prefix],
    key: Key,
) -> Option<Place<A>>
    ensures { result
        ≡ found_at (unreached_place nets.now) (lsas_of AsWide (lists_of database.now)) key }
{
    let lsa = lsa_with_key(database, Section::AsWide, key)?;
    unreached_place(nets, lsa)
}

/// The places of the LSAs of AS scope.
fn places_of<A: Allocator + Copy>(
    alloc: A,
    database: &Database<A>,
    nets: &[Prefix],
) -> Result<Vec<Place<A>, A>, AllocError>
    ensures { IfOk result (λ places. places.items
        ≡ found_in_order (unreached_place nets.now) (lsas_of AsWide (lists_of database.now))) }
{
    let keys = keys_in_order(alloc, database.lsas(Section::AsWide))?;
    let mut places = Vec::new(alloc);
    for key in &keys {
        push_some(&mut places, place_at(database, nets, *key))?;
    }
    Ok(places)
}

/// The AS-external-LSAs that no router uses, since no attached router has an intra-area or
/// inter-area route to their forwarding addresses (RFC 2328, 16.4 (3)). They are live, their
/// metrics are below LSInfinity, and they are in order of their keys.
///
/// Where no AS-external-LSA has a forwarding address, no route is calculated.
///
/// # Errors
///
/// Memory ran out.
pub fn forward_unreached_places<A: Allocator + Copy>(
    alloc: A,
    database: &Database<A>,
) -> Result<Vec<Place<A>, A>, AllocError>
    ensures { IfOk result
        (λ places. places.items ≡ forward_unreached_places (lists_of database.now)) }
{
    if !any_forwarded(database) {
        return Ok(Vec::new(alloc));
    }
    let nets = reached_nets(alloc, database)?;
    places_of(alloc, database, &nets)
}

//! What a router announces for an external prefix of its own.

ghost use Rattle.std.specs.Prelude.{◌≡◌};
ghost use Rattle.std.specs.Ordering.{is_lt};
ghost use Rattle.lsdb.specs.Slots.{lists_of};
ghost use Rattle.area_graph.specs.Least.{later};
ghost use Rattle.router_entries.specs.OwnExternals.{announced_for, own_by, own_cmp, own_external, type_of};
ghost use Rattle.router_entries.specs.steps.First.{first_with};

use lsa_codec::{Addr, ExternalView, LS_INFINITY, Lsa, Prefix, RouterId};
use lsdb::{Database, Section};
use std::alloc::Allocator;
use std::cmp::Ordering;

/// What an AS-external-LSA announces for its prefix.
#[derive(Clone, Copy, Debug, PartialEq, Eq)]
pub struct OwnExternal {
    /// Whether its metric is of type 2, which counts before any cost.
    pub is_type2: bool,
    /// Its metric.
    pub metric: u32,
    /// Its Link State ID.
    pub id: Addr,
    /// The forwarding address; 0 means the router itself.
    pub forward: Addr,
}

/// What an AS-external-LSA announces, if it is for this prefix.
fn announced_for<A: Allocator + Copy>(
    net: Prefix,
    lsa: &Lsa<A>,
    view: &ExternalView<'_>,
) -> Option<OwnExternal>
    requires { view.now ≡ lsa.now }
    ensures { result ≡ announced_for net lsa.now }
{
    if net != view.net() {
        return None;
    }
    Some(OwnExternal {
        is_type2: view.is_type2(),
        metric: view.metric(),
        id: lsa.key().id,
        forward: view.forward(),
    })
}

/// What an LSA announces, if it is an AS-external-LSA of a router for a prefix that is in use: it
/// is live, and its metric is below LSInfinity.
fn own_by<A: Allocator + Copy>(router: RouterId, net: Prefix, lsa: &Lsa<A>) -> Option<OwnExternal>
    ensures { result ≡ own_by router net lsa.now }
{
    if lsa.key().adv != router {
        return None;
    }
    let view = lsa.external()?;
    if lsa.at_max_age() || view.metric() >= LS_INFINITY {
        return None;
    }
    announced_for(net, lsa, &view)
}

/// The type of a metric, 1 or 2.
fn type_of(own: OwnExternal) -> u8
    ensures { result ≡ type_of own }
{
    if own.is_type2 { 2 } else { 1 }
}

/// Whether one comes before another: type 1 before type 2, then the least metric, then the least
/// Link State ID.
fn is_before(one: OwnExternal, other: OwnExternal) -> bool
    ensures { result ≡ is_lt (own_cmp one other) }
{
    let rank = (type_of(one), one.metric, one.id.0);
    rank.cmp(&(type_of(other), other.metric, other.id.0)) == Ordering::Less
}

/// The first of what was found so far and one more.
fn first_of(found: Option<OwnExternal>, more: OwnExternal) -> OwnExternal
    ensures { result ≡ later own_cmp found more }
{
    match found {
        Some(found) if !is_before(more, found) => found,
        _ => more,
    }
}

/// The first of what was found so far and one more, if there is one.
fn first_with(found: Option<OwnExternal>, more: Option<OwnExternal>) -> Option<OwnExternal>
    ensures { result ≡ first_with found more }
{
    match more {
        Some(more) => Some(first_of(found, more)),
        None => found,
    }
}

/// What a router announces for an external prefix of its own: of its AS-external-LSAs for it that
/// are in use the first, by type 1 before type 2, then by metric, then by Link State ID. It takes
/// no memory.
pub fn own_external_for<A: Allocator + Copy>(
    database: &Database<A>,
    router: RouterId,
    net: Prefix,
) -> Option<OwnExternal>
    ensures { result ≡ own_external (lists_of database.now) router net }
{
    let mut found = None;
    for lsa in database.lsas(Section::AsWide) {
        found = first_with(found, own_by(router, net, lsa));
    }
    found
}

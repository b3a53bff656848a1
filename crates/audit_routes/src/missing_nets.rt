//! Prefixes that routers announce into areas by RFC 2328, 12.4.3, and for which no summary-LSA is
//! there.

ghost use Rattle.std.specs.Prelude.{◌≡◌, ◌++◌, OnOk};
ghost use Rattle.external_routes.specs.Summaries.{is_announced_route};
ghost use Rattle.audit_routes.specs.Missing.{is_missing_net, missing_net, missing_nets, net_name};

use crate::missing_at::missing_at;
use crate::ways::RouterWays;
use audit_areas::push_some;
use audit_places::Place;
use best_ways::{PathType, Route};
use external_routes::is_among;
use lsa_codec::{AreaId, Key, Prefix, RouterId, SUMMARY_LSA};
use lsa_names::LsaName;
use std::alloc::{AllocError, Allocator};
use std::collections::BTreeSet;

/// What the summary-LSA of a router for a prefix is called.
fn net_name(area: AreaId, router: RouterId, net: Prefix) -> LsaName
    ensures { result ≡ net_name area router net }
{
    LsaName {
        area: Some(area),
        key: Key {
            kind: SUMMARY_LSA,
            id: net.addr(),
            adv: router,
        },
        net: Some(net),
    }
}

/// Whether a route is announced into an area (RFC 2328, 12.4.3).
fn is_announced_route<A: Allocator + Copy>(area: AreaId, route: &Route<A>) -> bool
    ensures { result ≡ is_announced_route area route.now }
{
    if is_among(area, route.areas.as_slice()) {
        return false;
    }
    area != AreaId::BACKBONE || route.kind == PathType::Intra
}

/// Whether a route inside the AS is announced into an area, and leads to a prefix that is not among
/// these.
fn is_missing_net<A: Allocator + Copy>(
    area: AreaId,
    nets: &BTreeSet<Prefix, A>,
    route: &Route<A>,
) -> bool
    ensures { result ≡ is_missing_net area nets.now.keys route.now }
{
    !nets.contains(&route.net) && is_announced_route(area, route)
}

/// The place of a summary-LSA for such a route.
fn missing_net<A: Allocator + Copy>(
    area: AreaId,
    router: RouterId,
    nets: &BTreeSet<Prefix, A>,
    route: &Route<A>,
) -> Option<Place<A>>
    ensures { result ≡ missing_net area router nets.now.keys route.now }
{
    if !is_missing_net(area, nets, route) {
        return None;
    }
    missing_at(net_name(area, router, route.net), route.cost)
}

/// Adds the places of the prefixes that a router does not announce into an area, where it announces
/// these.
pub(crate) fn push_nets<A: Allocator + Copy>(
    places: &mut Vec<Place<A>, A>,
    area: AreaId,
    ways: &RouterWays<A>,
    nets: &BTreeSet<Prefix, A>,
) -> Result<(), AllocError>
    ensures { OnOk result
        (places.new.items ≡ places.old.items ++ missing_nets area ways.now nets.now.keys) }
{
    for route in ways.routes().as_routes().as_slice() {
        push_some(places, missing_net(area, ways.router(), nets, route))?;
    }
    Ok(())
}

//! The destinations of summary-LSAs.

ghost use Rattle.std.specs.Prelude.{◌≡◌, ◌<◌, IfSome};
ghost use Rattle.lsa_codec.specs.Views.{ls_infinity};
ghost use Rattle.area_routes.specs.Inter.{announced_asbr, announced_network, usable_metric};

use crate::indexed_area::IndexedArea;
use crate::inside_routes::InsideRoutes;
use lsa_codec::{ASBR_SUMMARY_LSA, LS_INFINITY, Lsa, Prefix, RouterId};
use std::alloc::Allocator;

/// The metric of a summary-LSA that is live, has a metric below LSInfinity, and was originated by
/// another router.
pub(crate) fn usable_metric<A: Allocator + Copy>(lsa: &Lsa<A>, router: RouterId) -> Option<u32>
    ensures metric { result ≡ usable_metric router lsa.now }
    ensures below { IfSome result (λ metric. metric < ls_infinity) }
{
    let metric = lsa.summary()?.metric();
    if lsa.at_max_age() || metric >= LS_INFINITY || lsa.key().adv == router {
        return None;
    }
    Some(metric)
}

/// The prefix of a summary-LSA of type 3, where it has no intra-area route.
pub(crate) fn announced_network<A: Allocator + Copy>(
    lsa: &Lsa<A>,
    intra: &InsideRoutes<A>,
) -> Option<Prefix>
    ensures { result ≡ announced_network intra.now lsa.now }
{
    let net = lsa.summary()?.net()?;
    if intra.as_routes().has_route(net) {
        return None;
    }
    Some(net)
}

/// The router of a summary-LSA of type 4, where it is not the calculating router and not an AS
/// boundary router of the area.
pub(crate) fn announced_asbr<A: Allocator + Copy>(
    lsa: &Lsa<A>,
    router: RouterId,
    area: &IndexedArea<'_, A>,
) -> Option<RouterId>
    ensures { result ≡ announced_asbr router area.now lsa.now }
{
    let key = lsa.key();
    let asbr = RouterId(key.id.0);
    if key.kind != ASBR_SUMMARY_LSA || asbr == router || area.has_asbr(asbr) {
        return None;
    }
    Some(asbr)
}

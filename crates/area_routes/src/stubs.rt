//! The stub networks that an area offers (RFC 2328, 16.1).

ghost use Rattle.std.specs.Prelude.{◌≡◌, ◌<◌, [], OnOk, All, length};
ghost use Rattle.std.specs.List.{cons_option};
ghost use Rattle.area_routes.specs.Stubs.{is_lsa_of};
ghost use Rattle.area_routes.specs.steps.Growing.{with_offers};
ghost use Rattle.area_routes.specs.steps.StubCandidates.{hops_over, offer_over, offers_over};

use crate::area_ways::AreaWays;
use crate::stub_links::StubLink;
use lsa_codec::{Lsa, RouterId};
use next_hops::{Hop, Hops};
use spf::Tree;
use std::alloc::{AllocError, Allocator};

/// The hops to a stub network of the calculating router.
const CONNECTED: &[Hop] = &[Hop::Connected];

/// Whether a router-LSA is that of this router.
pub(crate) fn is_lsa_of<A: Allocator + Copy>(router: RouterId, lsa: &Lsa<A>) -> bool
    ensures { result ≡ is_lsa_of router lsa.now }
{
    lsa.key().id.0 == router.0
}

/// The hops to a stub network: those of its router, or `Connected` alone where that is the
/// calculating router.
fn hops_over<'a, A: Allocator + Copy>(
    root: RouterId,
    hops: &'a Hops<A>,
    link: &StubLink,
) -> &'a [Hop]
    requires { link.now.vertex < length hops.now }
    ensures { result.now ≡ hops_over root hops.now link.now }
{
    if link.router.0 == root.0 {
        return CONNECTED;
    }
    hops.of(link.vertex)
}

/// Adds what a stub link offers, if its router is reached.
fn add_stub<'a, A: Allocator + Copy>(
    ways: &mut AreaWays<'a, A>,
    root: RouterId,
    tree: &Tree<A>,
    hops: &'a Hops<A>,
    link: &StubLink,
) -> Result<(), AllocError>
    requires tree { link.now.vertex < length tree.now.distances }
    requires hops { link.now.vertex < length hops.now }
    ensures { OnOk result (ways.new ≡ with_offers ways.old
        (cons_option (offer_over root tree.now.distances hops.now link.now) [])) }
{
    let Some(distance) = tree.distance(link.vertex) else {
        return Ok(());
    };
    let cost = distance + u64::from(link.metric);
    ways.add(link.net, cost, hops_over(root, hops, link))
}

/// Adds what stub links offer.
pub(crate) fn add_stubs<'a, A: Allocator + Copy>(
    ways: &mut AreaWays<'a, A>,
    root: RouterId,
    tree: &Tree<A>,
    hops: &'a Hops<A>,
    links: &[StubLink],
) -> Result<(), AllocError>
    requires tree { All (λ link. link.vertex < length tree.now.distances) links.now }
    requires hops { All (λ link. link.vertex < length hops.now) links.now }
    ensures { OnOk result (ways.new ≡ with_offers ways.old
        (offers_over root tree.now.distances hops.now links.now)) }
{
    for link in links {
        add_stub(ways, root, tree, hops, link)?;
    }
    Ok(())
}

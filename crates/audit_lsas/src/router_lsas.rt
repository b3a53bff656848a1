//! Router-LSAs that say something of their routers or areas.

ghost use Rattle.std.specs.Prelude.{◌≡◌, IfOk};
ghost use Rattle.std.specs.List.{list_any};
ghost use Rattle.lsa_codec.specs.Links.{has_cost, links_of};
ghost use Rattle.lsdb.specs.Slots.{lists_of};
ghost use Rattle.audit_lsas.specs.Kinds.{area_kind_places, drained_places, is_live_router_lsa, is_of_other_kind, is_open, is_unfit, is_virtual_link, takes_externals, virtual_link_places};

use crate::found::lsa_places;
use crate::lsa_test::LsaTest;
use crate::scope::AreaScope;
use audit_places::Place;
use lsa_codec::{Link, LinkKind, Lsa, ROUTER_LSA, RouterView};
use lsdb::Database;
use std::alloc::{AllocError, Allocator};

/// Where the options of an LSA stand (RFC 2328, A.4.1).
const OPTIONS_AT: usize = 2;

/// The bit of the options of a router that takes AS-external-LSAs (RFC 2328, A.2).
const OPTION_E: u8 = 2;

/// The bit of an end of a virtual link in the flags of a router-LSA (RFC 2328, A.4.2).
const BIT_V: u8 = 4;

/// The greatest metric of a link, MaxLinkMetric (RFC 6987).
const MAX_LINK_METRIC: u16 = 0xffff;

/// Whether the router of an LSA takes AS-external-LSAs, by its options.
fn takes_externals<A: Allocator + Copy>(lsa: &Lsa<A>) -> bool
    ensures { result ≡ takes_externals lsa.now }
{
    lsa.bytes()[OPTIONS_AT] & OPTION_E != 0
}

/// Whether an LSA is a live router-LSA.
fn is_live_router_lsa<A: Allocator + Copy>(lsa: &Lsa<A>) -> bool
    ensures { result ≡ is_live_router_lsa lsa.now }
{
    lsa.key().kind == ROUTER_LSA && !lsa.at_max_age()
}

/// Whether the options of an LSA do not fit the kind of its area.
fn is_unfit<A: Allocator + Copy>(area: AreaScope, lsa: &Lsa<A>) -> bool
    ensures { result ≡ is_unfit area lsa.now }
{
    if area.is_stub {
        takes_externals(lsa)
    } else {
        !takes_externals(lsa)
    }
}

/// Whether an LSA is a live router-LSA whose options do not fit the kind of its area.
fn is_of_other_kind<A: Allocator + Copy>(area: AreaScope, lsa: &Lsa<A>) -> bool
    ensures { result ≡ is_of_other_kind area lsa.now }
{
    is_live_router_lsa(lsa) && is_unfit(area, lsa)
}

/// The test of `area-kind`.
#[derive(Clone, Copy)]
struct Misfit;

impl LsaTest for Misfit {
    ghost use Rattle.audit_lsas.specs.Kinds.{is_misfit};

    ghost passes_as = { λ test. is_misfit };

    fn passes<A: Allocator + Copy>(&self, scope: Option<AreaScope>, lsa: &Lsa<A>) -> bool {
        match scope {
            Some(area) => is_of_other_kind(area, lsa),
            None => false,
        }
    }
}

/// The live router-LSAs whose options have bit E in a stub area, or lack it in another one (RFC
/// 2328, 3.6 and A.2). Dumps know no NSSA: its routers clear the bit.
///
/// # Errors
///
/// Memory ran out.
pub fn area_kind_places<A: Allocator + Copy>(
    alloc: A,
    database: &Database<A>,
) -> Result<Vec<Place<A>, A>, AllocError>
    ensures { IfOk result (λ places. places.items ≡ area_kind_places (lists_of database.now)) }
{
    lsa_places(alloc, &Misfit, database)
}

/// Whether a link is a virtual link.
fn is_virtual(link: Link) -> bool
    ensures { result ≡ is_virtual_link link.kind }
{
    matches!(link.kind, LinkKind::Virtual)
}

/// Whether a router-LSA has a virtual link.
fn has_virtual_link(lsa: &RouterView<'_>) -> bool
    ensures { result ≡ list_any (λ link. is_virtual_link link.kind) (links_of lsa.now) }
{
    lsa.links().any(|link| is_virtual(link))
}

/// The test of `virtual-link`.
#[derive(Clone, Copy)]
struct VirtualLink;

impl LsaTest for VirtualLink {
    ghost use Rattle.audit_lsas.specs.Kinds.{has_virtual_link as has_one};

    ghost passes_as = { λ test. has_one };

    fn passes<A: Allocator + Copy>(&self, _scope: Option<AreaScope>, lsa: &Lsa<A>) -> bool {
        let Some(router) = lsa.router() else {
            return false;
        };
        !lsa.at_max_age() && (router.flags() & BIT_V != 0 || has_virtual_link(&router))
    }
}

/// The live router-LSAs with a virtual link, or with bit V (RFC 2328, 15 and A.4.2).
///
/// # Errors
///
/// Memory ran out.
pub fn virtual_link_places<A: Allocator + Copy>(
    alloc: A,
    database: &Database<A>,
) -> Result<Vec<Place<A>, A>, AllocError>
    ensures { IfOk result (λ places. places.items ≡ virtual_link_places (lists_of database.now)) }
{
    lsa_places(alloc, &VirtualLink, database)
}

/// Whether a link to a router or a transit network has less than the greatest metric.
fn is_open(link: Link) -> bool
    ensures { result ≡ is_open link }
{
    link.kind.has_cost() && link.metric != MAX_LINK_METRIC
}

/// Whether a router-LSA has such a link.
fn has_open_link(lsa: &RouterView<'_>) -> bool
    ensures { result ≡ list_any is_open (links_of lsa.now) }
{
    lsa.links().any(|link| is_open(link))
}

/// Whether a router-LSA has a link to a router or a transit network.
fn has_link(lsa: &RouterView<'_>) -> bool
    ensures { result ≡ list_any (λ link. has_cost link.kind) (links_of lsa.now) }
{
    lsa.links().any(|link| link.kind.has_cost())
}

/// The test of `drained`.
#[derive(Clone, Copy)]
struct Drained;

impl LsaTest for Drained {
    ghost use Rattle.audit_lsas.specs.Kinds.{is_drained};

    ghost passes_as = { λ test. is_drained };

    fn passes<A: Allocator + Copy>(&self, _scope: Option<AreaScope>, lsa: &Lsa<A>) -> bool {
        let Some(router) = lsa.router() else {
            return false;
        };
        !lsa.at_max_age() && (has_link(&router) && !has_open_link(&router))
    }
}

/// The live router-LSAs with links to routers or transit networks, which all have the greatest
/// metric (RFC 6987).
///
/// # Errors
///
/// Memory ran out.
pub fn drained_places<A: Allocator + Copy>(
    alloc: A,
    database: &Database<A>,
) -> Result<Vec<Place<A>, A>, AllocError>
    ensures { IfOk result (λ places. places.items ≡ drained_places (lists_of database.now)) }
{
    lsa_places(alloc, &Drained, database)
}

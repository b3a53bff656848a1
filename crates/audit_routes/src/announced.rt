//! What a router announces into an area by its live summary-LSAs.

ghost use Rattle.std.specs.Prelude.{◌≡◌, [], IfOk, OnOk};
ghost use Rattle.std.specs.List.{cons_option, filter_map};
ghost use Rattle.lost_routes.specs.Gathering.{Gathers};
ghost use Rattle.audit_routes.specs.Missing.{announced_asbr, announced_asbrs, announced_net, announced_nets, any_not_default, is_live_of};

use audit_routers::RouterList;
use lsa_codec::{ASBR_SUMMARY_LSA, Lsa, Prefix, RouterId};
use lsdb::Lsas;
use std::alloc::{AllocError, Allocator};
use std::collections::BTreeSet;

/// Whether an LSA is a live one of a router.
fn is_live_of<A: Allocator + Copy>(router: RouterId, lsa: &Lsa<A>) -> bool
    ensures { result ≡ is_live_of router lsa.now }
{
    !lsa.at_max_age() && lsa.key().adv == router
}

/// The prefix of an LSA, if it is a live summary-LSA of type 3 of a router.
fn announced_net<A: Allocator + Copy>(router: RouterId, lsa: &Lsa<A>) -> Option<Prefix>
    ensures { result ≡ announced_net router lsa.now }
{
    if !is_live_of(router, lsa) {
        return None;
    }
    lsa.summary()?.net()
}

/// The AS boundary router of an LSA, if it is a live summary-LSA of type 4 of a router.
fn announced_asbr<A: Allocator + Copy>(router: RouterId, lsa: &Lsa<A>) -> Option<RouterId>
    ensures { result ≡ announced_asbr router lsa.now }
{
    let key = lsa.key();
    if !is_live_of(router, lsa) || key.kind != ASBR_SUMMARY_LSA {
        return None;
    }
    Some(RouterId(key.id.0))
}

/// The AS boundary routers of the LSAs of type 4 of a router, one for each.
fn asbrs_by<A: Allocator + Copy>(
    alloc: A,
    router: RouterId,
    lsas: Lsas<'_, A>,
) -> Result<Vec<RouterId, A>, AllocError>
    ensures { IfOk result
        (λ asbrs. asbrs.items ≡ filter_map (announced_asbr router) lsas.entry) }
{
    lsas.filter_map(|lsa| announced_asbr(router, lsa))
        .collect(alloc)
}

/// Adds the prefix of an LSA, if it is a live summary-LSA of type 3 of a router.
fn add_net<A: Allocator + Copy>(
    nets: &mut BTreeSet<Prefix, A>,
    router: RouterId,
    lsa: &Lsa<A>,
) -> Result<(), AllocError>
    ensures { OnOk result (Gathers (cons_option (announced_net router lsa.now) []) nets.old.keys
        nets.new.keys) }
{
    if let Some(net) = announced_net(router, lsa) {
        nets.insert(net)?;
    }
    Ok(())
}

/// The prefixes that a router announces by some LSAs.
pub(crate) fn announced_nets<A: Allocator + Copy>(
    alloc: A,
    router: RouterId,
    lsas: Lsas<'_, A>,
) -> Result<BTreeSet<Prefix, A>, AllocError>
    ensures { IfOk result (λ nets. nets.keys ≡ announced_nets router lsas.entry) }
{
    let mut nets = BTreeSet::new(alloc);
    for lsa in lsas {
        add_net(&mut nets, router, lsa)?;
    }
    Ok(nets)
}

/// The AS boundary routers that a router announces by some LSAs.
pub(crate) fn announced_asbrs<A: Allocator + Copy>(
    alloc: A,
    router: RouterId,
    lsas: Lsas<'_, A>,
) -> Result<RouterList<A>, AllocError>
    ensures { IfOk result (λ asbrs. asbrs ≡ announced_asbrs router lsas.entry) }
{
    let asbrs = asbrs_by(alloc, router, lsas)?;
    RouterList::of(alloc, &asbrs)
}

/// Whether one of some prefixes is not that of the default destination.
pub(crate) fn any_not_default(nets: &[Prefix]) -> bool
    ensures { result ≡ any_not_default nets.now }
{
    nets.iter().any(|net| net.len() != 0)
}

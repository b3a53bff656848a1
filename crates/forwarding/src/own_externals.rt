//! The external prefixes that a router announces itself.

ghost use Rattle.std.specs.Prelude.{◌≡◌, ◌++◌, [], List, IfOk, OnOk};
ghost use Rattle.std.specs.List.{cons_option};
ghost use Rattle.lsa_codec.specs.Order.{prefix_cmp};
ghost use Rattle.lsa_codec.specs.Prefix.{Net};
ghost use Rattle.lsdb.specs.Slots.{lists_of};
ghost use Rattle.area_graph.specs.Rising.{rising};
ghost use Rattle.external_routes.specs.ExternalLsas.{is_in_use};
ghost use Rattle.forwarding.specs.OwnExternals.{announced, own_externals};

use lsa_codec::{LS_INFINITY, Lsa, Prefix, RouterId};
use lsdb::{Database, Section};
use std::alloc::{AllocError, Allocator};
use std::collections::BTreeSet;

/// The prefix of an LSA, if it is an AS-external-LSA of a router that is in use: it is live, and
/// its metric is below LSInfinity.
fn announced<A: Allocator + Copy>(router: RouterId, lsa: &Lsa<A>) -> Option<Prefix>
    ensures { result ≡ announced router lsa.now }
{
    if lsa.key().adv != router {
        return None;
    }
    let view = lsa.external()?;
    if lsa.at_max_age() || view.metric() >= LS_INFINITY {
        return None;
    }
    Some(view.net())
}

/// Adds the prefix of an LSA, if it is an AS-external-LSA of a router that is in use.
fn add_announced<A: Allocator + Copy>(
    nets: &mut BTreeSet<Prefix, A>,
    router: RouterId,
    lsa: &Lsa<A>,
) -> Result<(), AllocError>
    ensures { OnOk result ((before : List Net) → nets.old.keys ≡ rising prefix_cmp before
        → nets.new.keys ≡ rising prefix_cmp (before ++ cons_option (announced router lsa.now) [])) }
{
    if let Some(net) = announced(router, lsa) {
        nets.insert(net)?;
    }
    Ok(())
}

/// The prefixes of the AS-external-LSAs of a router that are in use (RFC 2328, 16.4 (2)).
///
/// # Errors
///
/// Memory ran out.
pub(crate) fn own_externals<A: Allocator + Copy>(
    alloc: A,
    database: &Database<A>,
    router: RouterId,
) -> Result<BTreeSet<Prefix, A>, AllocError>
    ensures { IfOk result (λ nets. nets.keys ≡ own_externals (lists_of database.now) router) }
{
    let mut nets = BTreeSet::new(alloc);
    for lsa in database.lsas(Section::AsWide) {
        add_announced(&mut nets, router, lsa)?;
    }
    Ok(nets)
}

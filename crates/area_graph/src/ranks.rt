//! Which network-LSA of a network is used: the one with the greatest Advertising Router.

ghost use Rattle.std.specs.Prelude.{◌≡◌, ℕ, ◌&&◌, ◌∷◌, ◌++◌, [], List, OnOk, IfOk};
ghost use Rattle.lsa_codec.specs.Fields.{link_state_id_of, advertising_router_of};
ghost use Rattle.area_graph.specs.Area.{is_network_lsa};
ghost use Rattle.area_graph.specs.steps.Ranks.{AreRanksOf, rank_in, exceeds, ranked};

use crate::used::VertexLsa;
use lsa_codec::{Addr, Lsa, NETWORK_LSA, RouterId};
use std::alloc::{AllocError, Allocator};
use std::collections::HashMap;
use std::hash::{BuildHasherDefault, FoldHasher};

/// The greatest Advertising Router of the network-LSAs of each Link State ID.
pub(crate) type Ranks<A> = HashMap<Addr, RouterId, BuildHasherDefault<FoldHasher>, A>;

fn rank_in<A: Allocator + Copy>(ranks: &Ranks<A>, network: Addr) -> Option<RouterId>
    ensures { result ≡ rank_in ranks.now network.0 }
{
    ranks.get(&network).copied()
}

/// Whether the rank of a Link State ID is a greater Router ID than this one.
fn exceeds<A: Allocator + Copy>(ranks: &Ranks<A>, network: Addr, router: RouterId) -> bool
    ensures { result ≡ exceeds router.0 (rank_in ranks.now network.0) }
{
    match rank_in(ranks, network) {
        Some(greatest) => router.0 < greatest.0,
        None => false,
    }
}

fn set_rank<A: Allocator + Copy>(
    ranks: &mut Ranks<A>,
    network: Addr,
    router: RouterId,
) -> Result<(), AllocError>
    ensures { OnOk result
        ((id : ℕ) → rank_in ranks.new id ≡ ranked network.0 router id (rank_in ranks.old id)) }
{
    ranks.insert(network, router)?;
    Ok(())
}

/// Raises the rank of a network to at least the Advertising Router of its LSA.
fn rank<A: Allocator + Copy>(ranks: &mut Ranks<A>, lsa: &Lsa<A>) -> Result<(), AllocError>
    ensures { OnOk result
        ((lsas : List (List ℕ)) → AreRanksOf lsas ranks.old
        → AreRanksOf (lsas ++ lsa.now ∷ []) ranks.new) }
{
    let key = lsa.key();
    if key.kind != 2 || exceeds(ranks, key.id, key.adv) {
        return Ok(());
    }
    set_rank(ranks, key.id, key.adv)
}

/// The greatest Advertising Router of the network-LSAs of each Link State ID.
pub(crate) fn ranks<A: Allocator + Copy>(
    alloc: A,
    lsas: &[VertexLsa<'_, A>],
) -> Result<Ranks<A>, AllocError>
    ensures { IfOk result (AreRanksOf lsas.now) }
{
    let mut ranks = HashMap::new(alloc);
    for lsa in lsas {
        rank(&mut ranks, lsa.lsa())?;
    }
    Ok(ranks)
}

/// Whether a network-LSA has a lower Advertising Router than another of its Link State ID.
pub(crate) fn is_outranked<A: Allocator + Copy>(ranks: &Ranks<A>, lsa: &Lsa<A>) -> bool
    ensures { result ≡ (is_network_lsa lsa.now
        && exceeds (advertising_router_of lsa.now) (rank_in ranks.now (link_state_id_of lsa.now))) }
{
    let key = lsa.key();
    key.kind == NETWORK_LSA && exceeds(ranks, key.id, key.adv)
}

//! What LSAs are found by in an index of slots.

use crate::origin::{Origin, prefix_of};
use lsa_codec::{Key, Lsa, RouterId};
use std::alloc::Allocator;

/// What LSAs are found by: their keys, their Advertising Routers, or these and their prefixes.
pub(crate) trait IndexKey: Ord + Copy + Sized {
    ghost use Rattle.std.specs.Prelude.{◌≡◌, ℕ, List, Option};
    ghost use Rattle.std.proofs.lemmas.Map.Lookups.{CmpEqualImpliesEq};

    /// What an LSA is found by, if it is.
    ghost found_by: { List ℕ → Option Self };

    /// What an LSA is found by; `None` where it is not.
    fn of_lsa<A: Allocator + Copy>(lsa: &Lsa<A>) -> Option<Self>
        ensures { result ≡ found_by lsa.now };

    /// The order distinguishes all values.
    ghost exact: { CmpEqualImpliesEq Self.cmp };
}

impl IndexKey for Key {
    ghost use Rattle.lsa_codec.proofs.OrderLemmas.{key_exact};
    ghost use Rattle.lsdb.specs.steps.IndexKeys.{own_key};

    ghost found_by = { own_key };

    ghost exact = { key_exact };

    fn of_lsa<A: Allocator + Copy>(lsa: &Lsa<A>) -> Option<Key> {
        Some(lsa.key())
    }
}

impl IndexKey for RouterId {
    ghost use Rattle.lsa_codec.proofs.OrderLemmas.{router_exact};
    ghost use Rattle.lsdb.specs.steps.IndexKeys.{own_router};

    ghost found_by = { own_router };

    ghost exact = { router_exact };

    fn of_lsa<A: Allocator + Copy>(lsa: &Lsa<A>) -> Option<RouterId> {
        Some(lsa.key().adv)
    }
}

impl IndexKey for Origin {
    ghost use Rattle.lsdb.specs.steps.IndexKeys.{origin_exact, own_origin};

    ghost found_by = { own_origin };

    ghost exact = { origin_exact };

    fn of_lsa<A: Allocator + Copy>(lsa: &Lsa<A>) -> Option<Origin> {
        let Some(prefix) = prefix_of(lsa) else {
            return None;
        };
        Some(Origin::new(lsa.key().adv, prefix))
    }
}

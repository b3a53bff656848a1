//! Laws of joining.

ghost use Rattle.std.specs.Prelude.{◌≡◌, IsPermutation, List};
ghost use Rattle.lsa_instances.specs.Newest.{AreSame};
ghost use Rattle.lsa_instances.specs.declared.keeping.FlushedLsas.{FlushedLsas as Flushed};
ghost use Rattle.lsa_instances.specs.declared.observation.Observation.{Observation as AnyObservation};
ghost use Rattle.lsa_instances.specs.declared.area.AreaReport.{AreaReport as AnyArea};
ghost use Rattle.lsdb_merge.specs.Joining.{Joining, joined};

use forgotten_instances::remembered_in_any_order;
use lsa_instances::newest_in_any_order;
use std::alloc::Allocator;

/// What [`join`](crate::join) makes depends on which observations and areas there are. It depends
/// neither on their order, as of files that are read in another order, nor on how often each is
/// repeated.
///
/// The function does nothing: its contract is the law.
pub fn joined_in_any_order<A: Allocator>()
    ensures order { (flushed : Flushed) (reported other : List (AnyObservation A))
        (areas others : List AnyArea) (one : Joining flushed reported areas)
        (two : Joining flushed other others) → IsPermutation reported other
        → IsPermutation areas others → joined one ≡ joined two }
    ensures again { (flushed : Flushed) (reported other : List (AnyObservation A))
        (areas others : List AnyArea) (one : Joining flushed reported areas)
        (two : Joining flushed other others) → AreSame reported other
        → AreSame areas others → joined one ≡ joined two }
{
    newest_in_any_order::<A>();
    remembered_in_any_order::<A>();
}

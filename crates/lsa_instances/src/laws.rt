//! Laws of the definitions.

ghost use Rattle.std.specs.Prelude.{◌≡◌, ℕ, All, AllPairs, List, map, IsPermutation, false, true};
ghost use Rattle.std.specs.List.{Any};
ghost use Rattle.std.specs.Cmp.{IsTotalOrder};
ghost use Rattle.std.specs.Ordering.{is_gt};
ghost use Rattle.std.specs.declared.cmp.Ordering.TheVariants.{Equal, Greater, Less};
ghost use Rattle.lsa_codec.specs.Key.{is_at_max_age, key_of};
ghost use Rattle.lsa_codec.specs.Order.{key_cmp};
ghost use Rattle.lsa_instances.specs.declared.keeping.FlushedLsas.{FlushedLsas as Flushed};
ghost use Rattle.lsa_instances.specs.declared.keeping.FlushedLsas.TheVariants.{Kept, LeftOut};
ghost use Rattle.lsa_instances.specs.declared.place.Scope.{Scope as AnyScope};
ghost use Rattle.lsa_instances.specs.declared.observation.Observation.{Observation as AnyObservation};
ghost use Rattle.lsa_instances.specs.Instance.{instance_cmp, IsNewerByRule};
ghost use Rattle.lsa_instances.specs.Newest.{AreNewest, AreSame, IsNewest, is_flushed};
ghost use Rattle.lsa_instances.specs.Newest.{lsas_of_scope, place_and_bytes};
ghost use Rattle.lsa_instances.specs.Order.{place_of};

use std::alloc::Allocator;

/// The order of the instances of one LSA is total, and only equal bytes compare as equal. What is
/// newer by the rule of RFC 2328, 13.1, is newer in this order. The rule itself is not a total
/// order: of three ages that are ten minutes apart, it has the first newer than the last, and
/// neither newer than the one between.
pub fn instance_order()
    ensures total { IsTotalOrder instance_cmp }
    ensures exact { (a b : List ℕ) → instance_cmp a b ≡ Equal → a ≡ b }
    ensures rule { (a b : List ℕ) → IsNewerByRule a b → instance_cmp a b ≡ Greater }
{}

/// The newest of observations are the newest of the same observations in any other order, as of
/// files that are read in another order, and also where some of them are repeated.
pub fn newest_in_any_order<A: Allocator>()
    ensures same { (flushed : Flushed) (reported other newest : List (AnyObservation A))
        → IsPermutation reported other → AreNewest flushed reported newest
        → AreNewest flushed other newest }
    ensures again { (flushed : Flushed) (reported other newest : List (AnyObservation A))
        → AreSame reported other → AreNewest flushed reported newest
        → AreNewest flushed other newest }

    // Two answers have the same LSAs, byte for byte, in the same order.
    ensures only { (flushed : Flushed) (reported a b : List (AnyObservation A))
        → AreNewest flushed reported a → AreNewest flushed reported b
        → map place_and_bytes a ≡ map place_and_bytes b }
{}

/// Within a scope the keys of the newest rise strictly: so each LSA stands once in its section, and
/// the order of a section's LSAs depends on their keys alone.
pub fn keys_rise<A: Allocator>()
    ensures { (flushed : Flushed) (reported newest : List (AnyObservation A)) (scope : AnyScope)
        → AreNewest flushed reported newest
        → AllPairs (λ a b. key_cmp (key_of a) (key_of b) ≡ Less) (lsas_of_scope scope newest) }
{}

/// What stands of flushed LSAs. Where they are left out, each LSA that stands was not flushed, and
/// no instance of it that was not flushed is newer. Where they are kept, each LSA that was seen
/// stands: the same instance where one was not flushed, and else one at MaxAge.
pub fn flushed_lsas<A: Allocator>()
    ensures left_out { (reported : List (AnyObservation A)) (x : AnyObservation A)
        → IsNewest LeftOut reported x
        → (is_flushed reported x ≡ false) × All (λ y. place_of y ≡ place_of x
        → is_flushed reported y ≡ false → is_gt (instance_cmp y.lsa x.lsa) ≡ false) reported }
    ensures kept { (reported newest : List (AnyObservation A)) → AreNewest Kept reported newest
        → All (λ y. Any (λ x. place_of x ≡ place_of y) newest) reported }
    ensures same { (reported : List (AnyObservation A)) (x : AnyObservation A)
        → IsNewest Kept reported x
        → is_flushed reported x ≡ false → IsNewest LeftOut reported x }
    ensures max_age { (reported : List (AnyObservation A)) (x : AnyObservation A)
        → IsNewest Kept reported x
        → is_flushed reported x ≡ true → is_at_max_age x.lsa ≡ true }
{}

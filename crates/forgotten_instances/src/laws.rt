//! Laws of the definitions.

ghost use Rattle.std.specs.Prelude.{◌≡◌, All, List, None, false};
ghost use Rattle.std.specs.List.{Any};
ghost use Rattle.forgotten_instances.specs.Forgotten.{is_forgotten, remembered};
ghost use Rattle.lsa_instances.specs.declared.observation.Observation.{Observation as AnyObservation};
ghost use Rattle.lsa_instances.specs.Newest.{AreSame};
ghost use Rattle.lsa_instances.specs.Order.{place_of};

use std::alloc::Allocator;

/// What is not forgotten of observations is the same of the same observations in any other order,
/// as of files that are read in another order, and also where some of them are repeated.
///
/// The function does nothing: its contract is the law.
pub fn remembered_in_any_order<A: Allocator>()
    ensures { (reported other : List (AnyObservation A)) → AreSame reported other
        → AreSame (remembered reported) (remembered other) }
{}

/// Of each LSA that is observed an observation is left, and each that has no time stamp.
///
/// The function does nothing: its contract is the law.
pub fn each_lsa_is_left<A: Allocator>()
    ensures each { (reported : List (AnyObservation A))
        → All (λ y. Any (λ x. place_of x ≡ place_of y) (remembered reported)) reported }
    ensures untimed { (reported : List (AnyObservation A)) (x : AnyObservation A)
        → x.seen ≡ None → is_forgotten reported x ≡ false }
{}

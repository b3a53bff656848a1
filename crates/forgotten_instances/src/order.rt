//! The order in which observations are looked through.

ghost use Rattle.std.specs.Prelude.{◌≡◌};
ghost use Rattle.forgotten_instances.specs.steps.Walking.{age_cmp};
ghost use Rattle.lsa_instances.specs.Order.{place_cmp};

use lsa_instances::{InstanceId, Observation, Place, compare_instance_ids};
use std::alloc::Allocator;
use std::cmp::Ordering;

/// Compares two places: by scope, then by key.
pub(crate) fn compare_places(a: Place, b: Place) -> Ordering
    ensures { result ≡ place_cmp a b }
{
    a.cmp(&b)
}

/// Compares two observations: by place, and the oldest instance of each LSA first.
pub(crate) fn compare_ages<A: Allocator + Copy>(a: &Observation<A>, b: &Observation<A>) -> Ordering
    ensures { result ≡ age_cmp a.now b.now }
{
    let instance = compare_instance_ids(InstanceId::of(&a.lsa), InstanceId::of(&b.lsa));
    compare_places(a.place(), b.place()).then(instance)
}

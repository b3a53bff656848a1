//! The order of instances, and the order in which observations are looked through.

ghost use Rattle.std.specs.Prelude.{◌≡◌};
ghost use Rattle.lsa_codec.specs.Fields.{age_of};
ghost use Rattle.lsa_instances.specs.Instance.{instance_cmp, seconds_of};
ghost use Rattle.lsa_instances.specs.Order.{place_cmp};
ghost use Rattle.lsa_instances.specs.steps.ObservationOrder.{observation_cmp};

use crate::header::{InstanceId, compare_instance_ids};
use crate::observation::Observation;
use crate::place::Place;
use byteorder::{BigEndian, ByteOrder};
use lsa_codec::Lsa;
use std::alloc::Allocator;
use std::cmp::Ordering;

/// The LS age, in seconds, without the bit DoNotAge (RFC 1793, 2.2).
fn seconds_of<A: Allocator + Copy>(lsa: &Lsa<A>) -> u16
    ensures { result ≡ seconds_of lsa.now }
{
    BigEndian::read_u16(lsa.bytes()) & 0x7fff
}

/// Compares two instances of one LSA: `Greater` where the first is newer (RFC 2328, 13.1). It is a
/// total order: see the law [`instance_order`](crate::instance_order).
pub fn compare_instances<A: Allocator + Copy>(a: &Lsa<A>, b: &Lsa<A>) -> Ordering
    ensures { result ≡ instance_cmp a.now b.now }
{
    let instance = compare_instance_ids(InstanceId::of(a), InstanceId::of(b));
    let max_age = a.at_max_age().cmp(&b.at_max_age());
    let youth = seconds_of(b).cmp(&seconds_of(a));
    let content = a.bytes().cmp(b.bytes());
    instance.then(max_age.then(youth.then(content)))
}

/// Compares two places: by scope, then by key.
pub(crate) fn compare_places(a: Place, b: Place) -> Ordering
    ensures { result ≡ place_cmp a b }
{
    a.cmp(&b)
}

/// Compares two observations: by place, and the newest instance of each LSA first.
pub(crate) fn compare_observations<A: Allocator + Copy>(
    a: &Observation<A>,
    b: &Observation<A>,
) -> Ordering
    ensures { result ≡ observation_cmp a.now b.now }
{
    compare_places(a.place(), b.place()).then(compare_instances(&b.lsa, &a.lsa))
}

//! What the observations of an LSA show that were looked at, the oldest instance first.

ghost use Rattle.std.specs.Prelude.{◌≡◌};
ghost use Rattle.forgotten_instances.specs.steps.Walking.{began, is_before, is_forgotten_by, is_of, last_of, later, older_than, past_with};

use crate::order::compare_places;
use byteorder::{BigEndian, ByteOrder};
use lsa_instances::{InstanceId, Observation, Place, compare_instance_ids};
use std::alloc::Allocator;

/// The instances of an LSA that were looked at. Moments are in nanoseconds since 1970, and `None`
/// where none is known.
#[derive(Clone, Copy, Debug)]
pub(crate) struct Past {
    /// The LSA.
    place: Place,
    /// The newest instance.
    instance: InstanceId,
    /// The last moment at which a copy of an instance began that is older than that.
    older: Option<u64>,
    /// The last moment at which a copy of any of the instances began.
    began: Option<u64>,
}

/// When a copy began: at its time stamp less its LS age, where it has a time stamp. The bit
/// DoNotAge counts as 32,768 seconds more (RFC 1793, 2.2): the age of such a copy does not say how
/// long a router has held it.
fn began<A: Allocator + Copy>(copy: &Observation<A>) -> Option<u64>
    ensures { result ≡ began copy.now }
{
    let age = u64::from(BigEndian::read_u16(copy.lsa.bytes())) * 1_000_000_000;
    match copy.seen {
        Some(seen) => Some(seen.saturating_sub(age)),
        None => None,
    }
}

/// The later of two moments, of those that are known.
fn later(a: Option<u64>, b: Option<u64>) -> Option<u64>
    ensures { result ≡ later a b }
{
    match (a, b) {
        (Some(a), Some(b)) => Some(a.max(b)),
        (Some(a), None) => Some(a),
        (None, b) => b,
    }
}

/// Whether a moment is known to be before another.
fn is_before(moment: Option<u64>, last: Option<u64>) -> bool
    ensures { result ≡ is_before moment last }
{
    match (moment, last) {
        (Some(moment), Some(last)) => moment < last,
        _ => false,
    }
}

/// Whether an observation is of this LSA.
fn is_of<A: Allocator + Copy>(past: Past, observation: &Observation<A>) -> bool
    ensures { result ≡ is_of past observation.now }
{
    compare_places(past.place, observation.place()).is_eq()
}

/// The last moment at which a copy of an older instance of the LSA of an observation began.
fn older_than<A: Allocator + Copy>(past: Option<Past>, observation: &Observation<A>) -> Option<u64>
    ensures { result ≡ older_than past observation.now }
{
    match past {
        Some(past) if is_of(past, observation) => {
            if compare_instance_ids(past.instance, InstanceId::of(&observation.lsa)).is_eq() {
                past.older
            } else {
                past.began
            }
        }
        _ => None,
    }
}

/// The last moment at which a copy of any instance of the LSA of an observation began.
fn last_of<A: Allocator + Copy>(past: Option<Past>, observation: &Observation<A>) -> Option<u64>
    ensures { result ≡ last_of past observation.now }
{
    match past {
        Some(past) if is_of(past, observation) => past.began,
        _ => None,
    }
}

/// What is known after one more observation.
pub(crate) fn past_with<A: Allocator + Copy>(
    past: Option<Past>,
    observation: &Observation<A>,
) -> Past
    ensures { result ≡ past_with past observation.now }
{
    Past {
        place: observation.place(),
        instance: InstanceId::of(&observation.lsa),
        older: older_than(past, observation),
        began: later(last_of(past, observation), began(observation)),
    }
}

/// Whether a copy of an older instance began after the observation was seen.
pub(crate) fn is_forgotten_by<A: Allocator + Copy>(
    past: Option<Past>,
    observation: &Observation<A>,
) -> bool
    ensures { result ≡ is_forgotten_by past observation.now }
{
    is_before(observation.seen, older_than(past, observation))
}

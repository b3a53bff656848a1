//! Flushed LSAs (RFC 2328, 14.1).

ghost use Rattle.std.specs.Prelude.{◌≡◌, Some};
ghost use Rattle.lsa_instances.specs.Newest.{began_after};
ghost use Rattle.lsa_instances.specs.steps.Flushing.{is_stopped, latest, flush_after};

use crate::observation::Observation;
use crate::order::compare_places;
use crate::place::Place;
use byteorder::{BigEndian, ByteOrder};
use std::alloc::Allocator;

/// The last moment at which an LSA was seen at MaxAge.
#[derive(Clone, Copy, Debug)]
pub(crate) struct Flush {
    /// The LSA.
    pub(crate) place: Place,
    /// The moment, in nanoseconds since 1970; `None` where one of the observations has no time
    /// stamp.
    pub(crate) last: Option<u64>,
}

/// Whether a copy began after a moment: a copy begins at its time stamp less its LS age. The bit
/// DoNotAge counts as 32,768 seconds more (RFC 1793, 2.2): the age of such a copy does not say how
/// long a router has held it.
fn began_after<A: Allocator + Copy>(moment: Option<u64>, copy: &Observation<A>) -> bool
    ensures { result ≡ began_after moment copy.now }
{
    let age = u64::from(BigEndian::read_u16(copy.lsa.bytes())) * 1_000_000_000;
    match (moment, copy.seen) {
        (Some(moment), Some(seen)) => moment < seen.saturating_sub(age),
        _ => false,
    }
}

/// The later of two moments, or `None` where one of them is not known.
fn latest(a: Option<u64>, b: Option<u64>) -> Option<u64>
    ensures { result ≡ latest a b }
{
    match (a, b) {
        (Some(a), Some(b)) => Some(a.max(b)),
        _ => None,
    }
}

/// Whether an observation is of the LSA that was flushed, and began no later.
pub(crate) fn is_stopped<A: Allocator + Copy>(flush: Option<Flush>, copy: &Observation<A>) -> bool
    ensures { result ≡ is_stopped flush copy.now }
{
    match flush {
        Some(flush) => {
            compare_places(flush.place, copy.place()).is_eq() && !began_after(flush.last, copy)
        }
        None => false,
    }
}

/// The flush of the LSA of an observation at MaxAge, joined with the flush seen before it.
pub(crate) fn flush_after<A: Allocator + Copy>(flush: Option<Flush>, seen: &Observation<A>) -> Flush
    ensures { result ≡ flush_after flush seen.now }
{
    let place = seen.place();
    let last = match flush {
        Some(flush) if compare_places(flush.place, place).is_eq() => latest(flush.last, seen.seen),
        _ => seen.seen,
    };
    Flush { place, last }
}

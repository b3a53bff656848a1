//! The newest instance of each LSA.

ghost use Rattle.std.specs.Prelude.{◌≡◌, IfOk, OnOk, IsPermutation};
ghost use Rattle.std.specs.List.Sorted.{IsSorted};
ghost use Rattle.lsa_instances.specs.Newest.{AreNewest};
ghost use Rattle.lsa_instances.specs.steps.Flushing.{flush_so_far, is_last, is_last_flush, newest_after};
ghost use Rattle.lsa_instances.specs.steps.Flushing.{with_first, without_flush};
ghost use Rattle.lsa_instances.specs.steps.ObservationOrder.{observation_cmp};

use crate::flush::{Flush, flush_after, is_stopped};
use crate::keeping::FlushedLsas;
use crate::observation::Observation;
use crate::order::{compare_observations, compare_places};
use std::alloc::{AllocError, Allocator};

/// The newest instance of each LSA, each once, in order of their places (RFC 2328, 13.1 and 14.1).
///
/// An observation at MaxAge flushes the instances of its LSA that are not newer, unless a copy
/// began after it, where a copy begins at its time stamp less its LS age. So an LSA that is
/// announced again stands, perhaps with the same sequence number, and a copy that was still under
/// way does not. Of the copies of one instance the one with the least age stands. An LSA of which
/// all observations were flushed is left out, or stands at MaxAge where flushed LSAs are kept.
///
/// # Errors
///
/// Memory ran out.
pub fn newest<A: Allocator + Copy>(
    alloc: A,
    flushed: FlushedLsas,
    observations: Vec<Observation<A>, A>,
) -> Result<Vec<Observation<A>, A>, AllocError>
    ensures { IfOk result (λ newest. AreNewest flushed observations.items newest.items) }
{
    newest_of_sorted(alloc, flushed, sorted(observations)?)
}

/// The observations by their places, the newest instance of each LSA first.
fn sorted<A: Allocator + Copy>(
    observations: Vec<Observation<A>, A>,
) -> Result<Vec<Observation<A>, A>, AllocError>
    ensures same { IfOk result (λ sorted. IsPermutation observations.items sorted.items) }
    ensures order { IfOk result (λ sorted. IsSorted observation_cmp sorted.items) }
{
    let mut observations = observations;
    observations.sort_by(|a, b| compare_observations(a, b))?;
    Ok(observations)
}

/// Whether the last of the observations is one of the same LSA.
fn is_last<A: Allocator + Copy>(
    observations: &[Observation<A>],
    observation: &Observation<A>,
) -> bool
    ensures { result ≡ is_last observations.now observation.now }
{
    match observations.last() {
        Some(last) => compare_places(last.place(), observation.place()).is_eq(),
        None => false,
    }
}

/// Whether the last of the observations is one of the same LSA, at MaxAge.
fn is_last_flush<A: Allocator + Copy>(
    observations: &[Observation<A>],
    observation: &Observation<A>,
) -> bool
    ensures { result ≡ is_last_flush observations.now observation.now }
{
    match observations.last() {
        Some(last) => {
            last.lsa.at_max_age() && compare_places(last.place(), observation.place()).is_eq()
        }
        None => false,
    }
}

/// Removes the flush of an observation's LSA, where it stands last.
fn drop_flush<A: Allocator + Copy>(
    newest: &mut Vec<Observation<A>, A>,
    observation: &Observation<A>,
)
    ensures { newest.new.items ≡ without_flush newest.old.items observation.now }
{
    if is_last_flush(newest, observation) {
        newest.truncate(newest.len() - 1);
    }
}

/// Adds a copy of an observation, where none of its LSA stands last.
fn put_first<A: Allocator + Copy>(
    alloc: A,
    newest: &mut Vec<Observation<A>, A>,
    observation: &Observation<A>,
) -> Result<(), AllocError>
    ensures { OnOk result (newest.new.items ≡ with_first newest.old.items observation.now) }
{
    if !is_last(newest, observation) {
        newest.push(observation.clone_of(alloc)?)?;
    }
    Ok(())
}

/// Looks at one more observation. `flush` is the flush seen before it, if any.
fn look_at<A: Allocator + Copy>(
    alloc: A,
    flushed: FlushedLsas,
    flush: Option<Flush>,
    newest: &mut Vec<Observation<A>, A>,
    observation: &Observation<A>,
) -> Result<(), AllocError>
    ensures { OnOk result
        (newest.new.items ≡ newest_after flushed flush newest.old.items observation.now) }
{
    if observation.lsa.at_max_age() || is_stopped(flush, observation) {
        return match flushed {
            FlushedLsas::LeftOut => Ok(()),
            FlushedLsas::Kept => put_first(alloc, newest, observation),
        };
    }
    drop_flush(newest, observation);
    put_first(alloc, newest, observation)
}

/// The flush that is known after one more observation.
fn flush_so_far<A: Allocator + Copy>(flush: Option<Flush>, seen: &Observation<A>) -> Option<Flush>
    ensures { result ≡ flush_so_far flush seen.now }
{
    if seen.lsa.at_max_age() {
        Some(flush_after(flush, seen))
    } else {
        flush
    }
}

/// The newest of sorted observations. A copy of each is made.
fn newest_of_sorted<A: Allocator + Copy>(
    alloc: A,
    flushed: FlushedLsas,
    observations: Vec<Observation<A>, A>,
) -> Result<Vec<Observation<A>, A>, AllocError>
    requires { IsSorted observation_cmp observations.items }
    ensures { IfOk result (λ newest. AreNewest flushed observations.items newest.items) }
{
    let mut newest = Vec::new(alloc);
    let mut flush: Option<Flush> = None;
    for observation in &observations {
        look_at(alloc, flushed, flush, &mut newest, observation)?;
        flush = flush_so_far(flush, observation);
    }
    Ok(newest)
}

//! Observations: made of LSAs, and beside what is expected of them.

use lsa_codec::Lsa;
use lsa_instances::{Observation, Scope};
use std::alloc::{AllocError, Allocator, Global};
use std::test::*;

/// What is observed of an LSA: where it stands, when it was seen, and its bytes.
pub(super) type Seen = (Scope, Option<u64>, &'static [u8]);

/// An LSA that is expected: where it stands, and its bytes.
pub(super) type Expected = (Scope, &'static [u8]);

/// Adds an observation.
fn add<A: Allocator + Copy>(
    observed: &mut Vec<Observation<A>, A>,
    alloc: A,
    seen: &Seen,
) -> Result<(), Fail> {
    let (scope, seen, bytes) = *seen;
    let (lsa, _) = Lsa::decode(alloc, bytes)?;
    observed.push(Observation { scope, seen, lsa })?;
    Ok(())
}

/// The observations of LSAs.
pub(super) fn observations<A: Allocator + Copy>(
    alloc: A,
    lsas: &[Seen],
) -> Result<Vec<Observation<A>, A>, Fail> {
    let mut observed = Vec::new(alloc);
    for seen in lsas {
        add(&mut observed, alloc, seen)?;
    }
    Ok(observed)
}

/// Whether observations are of these LSAs, in this order.
pub(super) fn are_of<A: Allocator + Copy>(
    observations: &[Observation<A>],
    lsas: &[Expected],
) -> bool {
    for (observation, lsa) in observations.iter().zip(lsas.iter()) {
        if (observation.scope, observation.lsa.bytes()) != *lsa {
            return false;
        }
    }
    observations.len() == lsas.len()
}

/// Parts, one after another.
pub(super) fn together(alloc: Global, parts: &[&[u8]]) -> Result<Vec<u8>, AllocError> {
    let mut bytes = Vec::new(alloc);
    for part in parts {
        bytes.extend_from_slice(part)?;
    }
    Ok(bytes)
}

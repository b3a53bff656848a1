//! Calls that behave otherwise where growths are refused: each is found, and how.

use std::alloc::Global;
use std::test::*;
use test_support::{FailingAlloc, FallibleCall, Outcome, first_wrong};

/// How a call behaves where growths are refused.
#[derive(Clone, Copy)]
enum Behavior {
    /// It reports the refused growth, changes nothing, and then answers as with ample memory.
    Right,
    /// It asks for no growth.
    NoGrowth,
    /// It leaves what it was lent changed after a refusal.
    Changed,
    /// It answers otherwise after a refusal.
    OtherAfter,
    /// It answers otherwise with one growth than with more.
    OtherAnswer,
    /// It never has growths enough.
    Endless,
}

impl Behavior {
    /// With how many growths it answers.
    fn growths(self) -> u64 {
        match self {
            Behavior::NoGrowth => 0,
            Behavior::Endless => u64::MAX,
            _ => 1,
        }
    }
}

/// One byte: 1 where something is other than it should be.
fn byte_of(alloc: Global, is_other: bool) -> Result<Vec<u8>, Fail> {
    Ok(Vec::from_slice(alloc, &[u8::from(is_other)])?)
}

impl FallibleCall for Behavior {
    fn outcome(
        &self,
        alloc: Global,
        _failing: &FailingAlloc,
        growths: u64,
    ) -> Result<Outcome, Fail> {
        let is_refused = growths < self.growths();
        let is_other = growths == 1 && matches!(self, Behavior::OtherAnswer);
        let first = match is_refused {
            true => None,
            false => Some(byte_of(alloc, is_other)?),
        };
        let is_other_after = is_refused && matches!(self, Behavior::OtherAfter);
        let is_changed = is_refused && matches!(self, Behavior::Changed);
        Ok(Outcome {
            first,
            then: Some(byte_of(alloc, is_other_after)?),
            before: byte_of(alloc, false)?,
            between: byte_of(alloc, is_changed)?,
        })
    }
}

/// Lists of calls, each with the place of the first that is wrong, and how it is wrong.
const LISTS: &[(&[Behavior], Option<(usize, &str)>)] = &[
    (&[Behavior::Right, Behavior::Right], None),
    (
        &[Behavior::Right, Behavior::NoGrowth, Behavior::Changed],
        Some((1, "no growth")),
    ),
    (
        &[Behavior::Changed, Behavior::NoGrowth],
        Some((0, "something else after a refusal")),
    ),
    (
        &[Behavior::Right, Behavior::Right, Behavior::OtherAfter],
        Some((2, "another answer after a refusal")),
    ),
    (
        &[Behavior::Right, Behavior::OtherAnswer],
        Some((1, "another answer")),
    ),
    (
        &[Behavior::Endless],
        Some((0, "no answer with 10,000 growths")),
    ),
];

#[test]
fn first_wrong_call_is_found(rt: HostRuntime) -> Result<(), Fail> {
    for (calls, wrong) in LISTS {
        assert_eq!(rt; first_wrong(rt.alloc(), calls)?, *wrong);
    }
    Ok(())
}

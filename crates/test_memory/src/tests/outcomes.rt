//! What is seen of calls that may change what they are made on.

use branches::Branches;
use edit_script::Command;
use recalculate::Planner;
use saved_sessions::save;
use std::alloc::Global;
use std::test::*;
use test_support::{CallOn, FailingAlloc, Outcome};

/// What calls are made on that they may change.
pub(super) trait Subject {
    /// Bytes that determine it.
    fn bytes(&mut self, alloc: Global) -> Result<Vec<u8>, Fail>;
}

/// What a planner counts, its dump and its session, saved.
impl Subject for Planner<&FailingAlloc> {
    fn bytes(&mut self, alloc: Global) -> Result<Vec<u8>, Fail> {
        let info = self.info();
        let mut bytes = format!(in alloc; "{info:?}")?.into_bytes();
        bytes.extend_from_slice(&self.dump()?)?;
        bytes.extend_from_slice(&save(self)?)?;
        Ok(bytes)
    }
}

/// The session of branch 0, saved, and the dump of each branch and what it counts.
impl Subject for Branches<&FailingAlloc> {
    fn bytes(&mut self, alloc: Global) -> Result<Vec<u8>, Fail> {
        let mut bytes = Vec::from_slice(alloc, &self.save()?)?;
        for branch in 0..8 {
            bytes.extend_from_slice(&self.dump(branch)?)?;
            bytes.extend_from_slice(&self.answer(branch, &Command::Info)?.text)?;
        }
        Ok(bytes)
    }
}

/// What is seen of a call with this number of growths, and of the same call with ample memory.
pub(super) fn outcome_on<'a, C: CallOn<'a, S>, S: Subject>(
    alloc: Global,
    failing: &'a FailingAlloc,
    subject: &mut S,
    call: C,
    growths: u64,
) -> Result<Outcome, Fail> {
    let before = subject.bytes(alloc)?;
    failing.set_remaining(growths);
    let first = call.answer(alloc, failing, subject)?;
    failing.set_remaining(u64::MAX);
    let between = subject.bytes(alloc)?;
    let then = call.answer(alloc, failing, subject)?;
    Ok(Outcome {
        first,
        then,
        before,
        between,
    })
}

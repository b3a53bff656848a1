//! Opening sessions, and saving one of which one edit is done and one undone.

use super::answers::of_bytes;
use super::network::network;
use super::outcomes::{Subject, outcome_on};
use lsdb::{DumpFault, DumpFaultKind};
use recalculate::Planner;
use saved_sessions::SavedSession;
use std::alloc::{AllocError, Global};
use std::test::*;
use test_support::{
    Answer, CallOn, FailingAlloc, FallibleCall, Outcome, first_wrong, outcome_of, session_of,
};

/// What is called.
#[derive(Clone, Copy)]
enum Call {
    Open,
    OpenDump,
    Save,
}

const CALLS: &[Call] = &[Call::Open, Call::OpenDump, Call::Save];

/// How many edits are done and undone, and their lines.
const HISTORY: &[u8] = b"\0\x01\0\x01cost 0.0.0.0 1.1.1.1 1 11\ncost 0.0.0.0 1.1.1.1 1 12\n";

/// The bytes of a session on the network.
fn session(alloc: Global) -> Result<Vec<u8>, AllocError> {
    session_of(alloc, network(), HISTORY)
}

/// The answer that is a session. One that is neither saved nor dumped as the bytes of which it was
/// opened is a failure.
fn of_session(
    alloc: Global,
    planner: &mut Planner<&FailingAlloc>,
    bytes: &[u8],
) -> Result<Answer, Fail> {
    if planner.save()?.as_slice() != bytes && planner.dump()?.as_slice() != bytes {
        return Err("another session")?;
    }
    Ok(Some(planner.bytes(alloc)?))
}

/// The answer that no session was opened. It is a failure, unless memory is wanted.
fn of_fault(fault: DumpFault) -> Result<Answer, Fail> {
    match (fault.kind, fault.offset) {
        (DumpFaultKind::OutOfMemory, 0) => Ok(None),
        _ => Err(fault)?,
    }
}

/// `open` on bytes. There is ample memory to look at the session, and from then on.
impl<'a> CallOn<'a, Vec<u8>> for Call {
    fn answer(
        &self,
        alloc: Global,
        failing: &'a FailingAlloc,
        bytes: &mut Vec<u8>,
    ) -> Result<Answer, Fail> {
        match Planner::open(failing, bytes) {
            Ok(mut planner) => {
                failing.set_remaining(u64::MAX);
                of_session(alloc, &mut planner, bytes)
            }
            Err(fault) => of_fault(fault),
        }
    }
}

/// `save` on the session. It is a failure where `save` answers other bytes than it was opened of.
impl<'a> CallOn<'a, Planner<&'a FailingAlloc>> for Call {
    fn answer(
        &self,
        alloc: Global,
        _failing: &'a FailingAlloc,
        planner: &mut Planner<&'a FailingAlloc>,
    ) -> Result<Answer, Fail> {
        let answer = of_bytes(alloc, planner.save())?;
        if answer.is_some() && answer != Some(session(alloc)?) {
            return Err("other bytes")?;
        }
        Ok(answer)
    }
}

/// What is seen of `save` on the session of these bytes.
fn outcome_of_saving(
    alloc: Global,
    failing: &FailingAlloc,
    bytes: &[u8],
    left: u64,
) -> Result<Outcome, Fail> {
    let mut planner = Planner::open(failing, bytes)?;
    outcome_on(alloc, failing, &mut planner, Call::Save, left)
}

impl FallibleCall for Call {
    fn outcome(&self, alloc: Global, failing: &FailingAlloc, left: u64) -> Result<Outcome, Fail> {
        let session = session(alloc)?;
        match self {
            Call::Open => outcome_of(alloc, failing, session, *self, left),
            Call::OpenDump => {
                let dump = Vec::from_slice(alloc, network())?;
                outcome_of(alloc, failing, dump, *self, left)
            }
            Call::Save => outcome_of_saving(alloc, failing, &session, left),
        }
    }
}

#[test]
fn each_growth_of_a_call_refused(rt: HostRuntime) -> Result<(), Fail> {
    assert_eq!(rt; first_wrong(rt.alloc(), CALLS)?, None);
    Ok(())
}

//! Calls of planners and of sessions, as the tests make them. These have no clauses, so that the
//! prover reads those of a call once, and not in each test. One of them owns a planner and lends
//! it: what to drop one costs the prover is paid there alone.

use edit_history::{EditFault, RedoFault, UndoFault};
use edit_script::Edit;
use recalculate::Planner;
use saved_sessions::open;
use std::alloc::Global;
use std::test::Fail;
use test_support::FailingAlloc;

/// What is asked of a planner whose growths are counted.
pub(super) trait Question {
    /// What is found.
    type Found;

    /// Finds it, and may change the planner.
    fn find(
        &self,
        planner: &mut Planner<&FailingAlloc>,
        failing: &FailingAlloc,
    ) -> Result<Self::Found, Fail>;
}

/// What is found of a session that is opened. A dump is a session without edits.
pub(super) fn on_session<Q: Question>(
    failing: &FailingAlloc,
    bytes: &[u8],
    question: &Q,
) -> Result<Q::Found, Fail> {
    let mut planner = open(failing, bytes)?;
    question.find(&mut planner, failing)
}

/// What is found of a session that is opened with ample memory.
pub(super) fn ask<Q: Question>(
    alloc: Global,
    bytes: &[u8],
    question: &Q,
) -> Result<Q::Found, Fail> {
    let failing = FailingAlloc::new(alloc, u64::MAX);
    on_session(&failing, bytes, question)
}

/// Carries an edit out.
pub(super) fn edit(planner: &mut Planner<&FailingAlloc>, edit: &Edit) -> Result<(), EditFault> {
    planner.edit(edit)
}

/// Takes edits back.
pub(super) fn undo(planner: &mut Planner<&FailingAlloc>, count: u32) -> Result<(), UndoFault> {
    planner.undo(count)
}

/// Carries undone edits out again.
pub(super) fn redo(planner: &mut Planner<&FailingAlloc>, count: u32) -> Result<(), RedoFault> {
    planner.redo(count)
}

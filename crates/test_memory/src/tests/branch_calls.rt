//! Calls of branches, of which branch 0 has one edit done and one undone.

use super::answers::{of_bytes, of_routers};
use super::network::{ROUTER, database_of};
use super::outcomes::outcome_on;
use branches::{Branches, reply_text};
use edit_script::parse;
use std::alloc::{AllocError, Global};
use std::test::*;
use test_support::{Answer, CallOn, FailingAlloc, FallibleCall, Outcome, first_wrong};

/// What is called. The first command in a branch, 1, is made where no other branch but 0 was
/// named. Branch 1 is named before each other call.
#[derive(Clone, Copy)]
enum Call {
    StepEdit,
    StepTable,
    StepTables,
    StepCompare,
    StepFirst,
    StepFirstTables,
    AnswerEdit,
    AnswerTable,
    AnswerTables,
    AnswerCompare,
    AnswerInfo,
    AnswerFirst,
    AnswerFirstTables,
    Routers,
    RoutersUnnamed,
    PushTable,
    PushFirstTable,
    Dump,
    DumpNamed,
    DumpUnnamed,
    Save,
}

const CALLS: &[Call] = &[
    Call::StepEdit,
    Call::StepTable,
    Call::StepTables,
    Call::StepCompare,
    Call::StepFirst,
    Call::StepFirstTables,
    Call::AnswerEdit,
    Call::AnswerTable,
    Call::AnswerTables,
    Call::AnswerCompare,
    Call::AnswerInfo,
    Call::AnswerFirst,
    Call::AnswerFirstTables,
    Call::Routers,
    Call::RoutersUnnamed,
    Call::PushTable,
    Call::PushFirstTable,
    Call::Dump,
    Call::DumpNamed,
    Call::DumpUnnamed,
    Call::Save,
];

/// The line that a call carries out.
fn line_of(call: Call) -> &'static str {
    match call {
        Call::StepTable | Call::AnswerTable => "table 1.1.1.1",
        Call::StepTables | Call::AnswerTables => "tables",
        Call::StepCompare | Call::AnswerCompare => "compare 1.1.1.1",
        Call::AnswerInfo => "info",
        Call::StepFirst | Call::AnswerFirst => "@1 cost 0.0.0.0 1.1.1.1 1 7",
        Call::StepFirstTables | Call::AnswerFirstTables => "@1 tables",
        _ => "cost 0.0.0.0 1.1.1.1 1 7",
    }
}

/// What stands before each call, in branch 0.
const BEFORE: &[&str] = &[
    "cost 0.0.0.0 1.1.1.1 1 11",
    "cost 0.0.0.0 1.1.1.1 1 12",
    "undo 1",
];

/// The same in branch 1.
const NAMED: &[&str] = &["@1 cost 0.0.0.0 1.1.1.1 1 13"];

/// Carries lines out.
pub(super) fn carry_out(
    branches: &mut Branches<&FailingAlloc>,
    lines: &[&str],
) -> Result<(), Fail> {
    for line in lines {
        let (branch, command) = parse(line.as_bytes())?;
        let _reply = branches.step(branch, &command)?;
    }
    Ok(())
}

/// Carries out what stands before a call.
fn prepare(branches: &mut Branches<&FailingAlloc>, call: Call) -> Result<(), Fail> {
    carry_out(branches, BEFORE)?;
    match call {
        Call::StepFirst | Call::StepFirstTables => Ok(()),
        Call::AnswerFirst | Call::AnswerFirstTables | Call::PushFirstTable => Ok(()),
        _ => carry_out(branches, NAMED),
    }
}

/// The text of the reply to the line of a call, carried out by `step`. There is ample memory for
/// the text, and from then on.
fn stepped<'a>(
    alloc: Global,
    failing: &'a FailingAlloc,
    branches: &mut Branches<&'a FailingAlloc>,
    call: Call,
) -> Result<Answer, Fail> {
    let (branch, command) = parse(line_of(call).as_bytes())?;
    let Ok(reply) = branches.step(branch, &command) else {
        return Ok(None);
    };
    failing.set_remaining(u64::MAX);
    of_bytes(alloc, reply_text(failing, branch, &reply))
}

/// The text of the reply to the line of a call, carried out by `answer`.
fn answered(
    alloc: Global,
    branches: &mut Branches<&FailingAlloc>,
    call: Call,
) -> Result<Answer, Fail> {
    let (branch, command) = parse(line_of(call).as_bytes())?;
    match branches.answer(branch, &command) {
        Ok(answer) => of_bytes(alloc, Ok(answer.text)),
        Err(AllocError) => Ok(None),
    }
}

/// The text of the table of a router in branch 1, added to an empty one.
fn pushed<'a>(
    alloc: Global,
    failing: &'a FailingAlloc,
    branches: &mut Branches<&'a FailingAlloc>,
) -> Result<Answer, Fail> {
    let mut text = String::new(failing);
    match branches.push_table(1, ROUTER, &mut text) {
        Ok(()) => of_bytes(alloc, Ok(text.into_bytes())),
        Err(AllocError) => Ok(None),
    }
}

/// Whether a call is one of `answer`.
fn is_answered(call: Call) -> bool {
    match call {
        Call::AnswerEdit | Call::AnswerTable | Call::AnswerTables | Call::AnswerCompare => true,
        Call::AnswerInfo | Call::AnswerFirst | Call::AnswerFirstTables => true,
        _ => false,
    }
}

impl<'a> CallOn<'a, Branches<&'a FailingAlloc>> for Call {
    fn answer(
        &self,
        alloc: Global,
        failing: &'a FailingAlloc,
        branches: &mut Branches<&'a FailingAlloc>,
    ) -> Result<Answer, Fail> {
        if is_answered(*self) {
            return answered(alloc, branches, *self);
        }
        match self {
            Call::Routers => of_routers(alloc, branches.routers(1)),
            Call::RoutersUnnamed => of_routers(alloc, branches.routers(2)),
            Call::PushTable | Call::PushFirstTable => pushed(alloc, failing, branches),
            Call::Dump => of_bytes(alloc, branches.dump(0)),
            Call::DumpNamed => of_bytes(alloc, branches.dump(1)),
            Call::DumpUnnamed => of_bytes(alloc, branches.dump(2)),
            Call::Save => of_bytes(alloc, branches.save()),
            _ => stepped(alloc, failing, branches, *self),
        }
    }
}

impl FallibleCall for Call {
    fn outcome(&self, alloc: Global, failing: &FailingAlloc, left: u64) -> Result<Outcome, Fail> {
        let mut branches = Branches::new(failing, database_of(failing)?);
        prepare(&mut branches, *self)?;
        outcome_on(alloc, failing, &mut branches, *self, left)
    }

    fn may_be_done(&self) -> bool {
        is_answered(*self)
    }
}

#[test]
fn each_growth_of_a_call_refused(rt: HostRuntime) -> Result<(), Fail> {
    assert_eq!(rt; first_wrong(rt.alloc(), CALLS)?, None);
    Ok(())
}

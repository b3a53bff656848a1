//! Texts of tables, of their differences and of replies.

use super::answers::of_bytes;
use super::branch_calls::carry_out;
use super::network::database_of;
use branches::{Branches, Reply, reply_text, tables_head};
use edit_script::parse;
use std::alloc::{AllocError, Global};
use std::test::*;
use table_report::{compare_text, table_text};
use test_support::{FailingAlloc, FallibleCall, Outcome, first_wrong};

/// What is called.
#[derive(Clone, Copy)]
enum Call {
    Table,
    Compare,
    TablesHead,
    ReplyDone,
    ReplyRefused,
    ReplyTable,
    ReplyTables,
    ReplyCompare,
    ReplyInfo,
}

const CALLS: &[Call] = &[
    Call::Table,
    Call::Compare,
    Call::TablesHead,
    Call::ReplyDone,
    Call::ReplyRefused,
    Call::ReplyTable,
    Call::ReplyTables,
    Call::ReplyCompare,
    Call::ReplyInfo,
];

/// The line whose reply a text is made of.
fn line_of(call: Call) -> &'static str {
    match call {
        Call::Table | Call::ReplyTable => "table 1.1.1.1",
        Call::Compare | Call::ReplyCompare => "compare 1.1.1.1",
        Call::ReplyDone => "redo 0",
        Call::ReplyRefused => "redo 1",
        Call::TablesHead | Call::ReplyTables => "tables",
        Call::ReplyInfo => "info",
    }
}

/// What stands before the line: routes change, one comes, and others go.
const EDITS: &[&str] = &[
    "cost 0.0.0.0 1.1.1.1 1 7",
    "add-stub 0.0.0.0 1.1.1.1 10.9.0.0/16 3",
    "drop-link 0.0.0.1 1.1.1.1 1",
];

/// The text that a call makes.
fn text_of<'a>(
    failing: &'a FailingAlloc,
    reply: &Reply<&'a FailingAlloc>,
    call: Call,
) -> Result<Vec<u8, &'a FailingAlloc>, AllocError> {
    match (call, reply) {
        (Call::Table, Reply::Table(table)) => table_text(failing, table),
        (
            Call::Compare,
            Reply::Compare {
                router,
                before,
                now,
            },
        ) => compare_text(failing, *router, before, now),
        (Call::TablesHead, _) => Ok(tables_head(failing, 0, 2)?.into_bytes()),
        _ => reply_text(failing, 0, reply),
    }
}

/// What is seen of a call on a reply.
fn outcome_on<'a>(
    alloc: Global,
    failing: &'a FailingAlloc,
    reply: &Reply<&'a FailingAlloc>,
    call: Call,
    growths: u64,
) -> Result<Outcome, Fail> {
    failing.set_remaining(growths);
    let first = of_bytes(alloc, text_of(failing, reply, call))?;
    failing.set_remaining(u64::MAX);
    let then = of_bytes(alloc, text_of(failing, reply, call))?;
    Ok(Outcome::of_answers(alloc, first, then))
}

/// What is seen of a call on the reply to its line, after the edits. No function hands the reply
/// out: the kit gets no proof of one that answers what `step` does.
fn outcome_after<'a>(
    alloc: Global,
    failing: &'a FailingAlloc,
    branches: &mut Branches<&'a FailingAlloc>,
    call: Call,
    growths: u64,
) -> Result<Outcome, Fail> {
    carry_out(branches, EDITS)?;
    let (branch, command) = parse(line_of(call).as_bytes())?;
    let reply = branches.step(branch, &command)?;
    outcome_on(alloc, failing, &reply, call, growths)
}

impl FallibleCall for Call {
    fn outcome(&self, alloc: Global, failing: &FailingAlloc, left: u64) -> Result<Outcome, Fail> {
        let mut branches = Branches::new(failing, database_of(failing)?);
        outcome_after(alloc, failing, &mut branches, *self, left)
    }
}

#[test]
fn each_growth_of_a_call_refused(rt: HostRuntime) -> Result<(), Fail> {
    assert_eq!(rt; first_wrong(rt.alloc(), CALLS)?, None);
    Ok(())
}

//! Calls that read files, and those that put together what files contain: each of their growths
//! refused in turn.

// What the calls are lent, and what they answer.
mod answers;
mod lent;

use crate::tests::lists::pieces::{DUMP, TABLES};
use crate::tests::observed::observations;
use answers::{
    of_capture, of_content, of_database, of_differences, of_document, of_file, of_lines, of_list,
    of_observations, of_walk,
};
use capture_files::{End, read_capture};
use frr_json::read_printed_json;
use frr_text::read_printed;
use lent::{AREA, OBSERVED, frames, read_bytes};
use lsa_instances::{FlushedLsas, newest};
use lsdb::Database;
use lsdb_listing::{differences, list_lines, read_list};
use lsdb_merge::join;
use network_files::read_file;
use ospf_packets::read_frames;
use snmp_walk::read_walk;
use std::alloc::Global;
use std::test::*;
use test_support::{Answer, FailingAlloc, FallibleCall, Outcome, growths_of};

/// What is called.
#[derive(Clone, Copy, Debug)]
enum Call {
    Capture,
    Frames,
    Walk,
    Printed,
    Document,
    List,
    Differences,
    Lines,
    FileOfCapture,
    FileOfWalk,
    FileOfText,
    FileOfDocument,
    Newest,
    Join,
}

const CALLS: &[Call] = &[
    Call::Capture,
    Call::Frames,
    Call::Walk,
    Call::Printed,
    Call::Document,
    Call::List,
    Call::Differences,
    Call::Lines,
    Call::FileOfCapture,
    Call::FileOfWalk,
    Call::FileOfText,
    Call::FileOfDocument,
    Call::Newest,
    Call::Join,
];

/// What `newest` answers of the observations.
fn of_newest(alloc: Global, failing: &FailingAlloc, growths: u64) -> Result<Answer, Fail> {
    let observed = observations(failing, OBSERVED)?;
    failing.set_remaining(growths);
    of_observations(alloc, newest(failing, FlushedLsas::LeftOut, observed))
}

/// What `join` answers of the observations, and of an area of which no LSA was seen.
fn of_join(alloc: Global, failing: &FailingAlloc, growths: u64) -> Result<Answer, Fail> {
    let observed = observations(failing, OBSERVED)?;
    failing.set_remaining(growths);
    let joined = join(failing, FlushedLsas::Kept, observed, &[AREA]);
    of_database(alloc, failing, joined)
}

/// What a call answers of a list beside a database.
fn of_listing(
    alloc: Global,
    failing: &FailingAlloc,
    call: Call,
    growths: u64,
) -> Result<Answer, Fail> {
    let list = read_list(failing, TABLES)?;
    let database = Database::load(failing, DUMP)?;
    failing.set_remaining(growths);
    match call {
        Call::Differences => {
            of_differences(alloc, differences(failing, &database, &list.headers))
        }
        _ => of_lines(alloc, list_lines(failing, "r1.txt", &database, &list)),
    }
}

/// What a call answers that reads bytes.
fn of_bytes(
    alloc: Global,
    failing: &FailingAlloc,
    call: Call,
    bytes: &[u8],
) -> Result<Answer, Fail> {
    match call {
        Call::Capture => of_capture(alloc, read_capture(failing, bytes)),
        Call::Walk => of_walk(alloc, read_walk(failing, bytes)),
        Call::Printed => of_content(alloc, read_printed(failing, bytes)),
        Call::Document => of_document(alloc, read_printed_json(failing, bytes)),
        Call::List => of_list(alloc, read_list(failing, bytes)),
        _ => of_file(alloc, read_file(failing, bytes)),
    }
}

/// What a call answers after that number of growths. What it is lent is made with ample memory.
fn answer_with(
    alloc: Global,
    failing: &FailingAlloc,
    call: Call,
    growths: u64,
) -> Result<Answer, Fail> {
    match call {
        Call::Newest => of_newest(alloc, failing, growths),
        Call::Join => of_join(alloc, failing, growths),
        Call::Differences | Call::Lines => of_listing(alloc, failing, call, growths),
        Call::Frames => {
            failing.set_remaining(growths);
            of_content(alloc, read_frames(failing, &frames(), End::Whole))
        }
        _ => {
            let bytes = read_bytes(alloc, call)?;
            failing.set_remaining(growths);
            of_bytes(alloc, failing, call, &bytes)
        }
    }
}

impl FallibleCall for Call {
    fn outcome(
        &self,
        alloc: Global,
        failing: &FailingAlloc,
        growths: u64,
    ) -> Result<Outcome, Fail> {
        let first = answer_with(alloc, failing, *self, growths)?;
        failing.set_remaining(u64::MAX);
        let then = answer_with(alloc, failing, *self, u64::MAX)?;
        Ok(Outcome::of_answers(alloc, first, then))
    }
}

/// The number of growths that a call has at least: a document those of its value, of what that
/// contains, of the LSA and of its bytes, a list those of its lines and of its headers.
fn least_growths(call: Call) -> u64 {
    match call {
        Call::Document => 5,
        Call::Lines => 3,
        Call::List => 2,
        _ => 1,
    }
}

#[test]
fn each_growth_of_a_call_refused(rt: HostRuntime) -> Result<(), Fail> {
    for call in CALLS {
        let growths = growths_of(rt.alloc(), call)?;
        assert!(rt; least_growths(*call) <= growths, "{call:?}: {growths}");
    }
    Ok(())
}

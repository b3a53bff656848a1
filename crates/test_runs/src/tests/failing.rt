//! Readers and writers that fail at each byte in turn.

use super::outcome::{run_given, run_whole, run_without_out};
use lsdb::{DumpFault, DumpFaultKind};
use std::alloc::Global;
use std::test::*;
use test_support::{Failing, Sink, Source, Zeros};
use whole_run::{RunFault, SAMPLE, Summary};

/// An edit, lines without a reply, a line that is not a command, a table and a comparison, whose
/// replies have two lines each, a refused edit and a refused undo, and an undo.
const SCRIPT: &[u8] = b"cost 0.0.0.0 1.1.1.1 1 65535
# note

frob
table 1.1.1.1
compare 1.1.1.1
cost 0.0.0.0 1.1.1.1 1 0
undo 2
undo 1";

const REPLIES: &[u8] = b"@0 ok
script S2 UnknownWord
@0 table 1.1.1.1 1
10.2.0.0/16 intra 65540 0 0.0.0.0 link:10.0.0.1
@0 compare 1.1.1.1 1
~ 10.2.0.0/16 intra 65540 0 0.0.0.0 link:10.0.0.1 was intra 15 0 0.0.0.0 link:10.0.0.1
@0 refused E4 ZeroCost
@0 refused U1 NothingToUndo
@0 ok
";

/// The session that SCRIPT leaves of the sample, saved: no edit is done, and one is undone.
const LEFT: &[u8] = &[
    0x4f, 0x53, 0x57, 0x50, 0x02, 0x01, 0x00, 0x00, 0x00, 0x00, 0x00, 0x00, 0x02, 0x00, 0x01, 0x02,
    0x01, 0x01, 0x01, 0x01, 0x01, 0x01, 0x01, 0x01, 0x01, 0x80, 0x00, 0x00, 0x01, 0xd5, 0x5a, 0x00,
    0x24, 0x00, 0x00, 0x00, 0x01, 0x02, 0x02, 0x02, 0x02, 0x0a, 0x00, 0x00, 0x01, 0x01, 0x00, 0x00,
    0x0a, 0x00, 0x01, 0x02, 0x01, 0x02, 0x02, 0x02, 0x02, 0x02, 0x02, 0x02, 0x02, 0x80, 0x00, 0x00,
    0x01, 0x62, 0xa7, 0x00, 0x30, 0x00, 0x00, 0x00, 0x02, 0x01, 0x01, 0x01, 0x01, 0x0a, 0x00, 0x00,
    0x02, 0x01, 0x00, 0x00, 0x0a, 0x0a, 0x02, 0x00, 0x00, 0xff, 0xff, 0x00, 0x00, 0x03, 0x00, 0x00,
    0x05, 0x00, 0x00, 0x00, 0x00, 0x00, 0x01, 0x63, 0x6f, 0x73, 0x74, 0x20, 0x30, 0x2e, 0x30, 0x2e,
    0x30, 0x2e, 0x30, 0x20, 0x31, 0x2e, 0x31, 0x2e, 0x31, 0x2e, 0x31, 0x20, 0x31, 0x20, 0x36, 0x35,
    0x35, 0x33, 0x35, 0x0a,
];

/// A place past the end of every text of these tests.
const NEVER: usize = 1_000_000;

/// A reader of a text, one byte at a time, that fails after `fails_after` bytes, if it is given.
fn source(text: &'static [u8], fails_after: Option<usize>) -> Source<'static> {
    Source::new(text, 1, fails_after)
}

/// A writer that takes one byte at a time, and `limit` bytes at most.
fn sink(alloc: Global, limit: usize, failing: Failing) -> Sink {
    Sink::new(alloc, 1, limit, failing)
}

const SUMMARY: Summary = Summary {
    commands: 7,
    refused: 3,
};

#[test]
fn runs_over_short_reads_and_writes(rt: HostRuntime) -> Result<(), Fail> {
    let dump = source(SAMPLE, None);
    let script = source(SCRIPT, None);
    let replies = sink(rt.alloc(), NEVER, Failing::WriteErrs);
    let out = sink(rt.alloc(), NEVER, Failing::WriteErrs);
    let save = sink(rt.alloc(), NEVER, Failing::WriteErrs);
    let ended = run_whole(rt.alloc(), dump, script, replies, out, save);
    assert_eq!(rt; ended.result, Ok(SUMMARY));
    assert_eq!(rt; ended.replies.stream.taken.as_slice(), REPLIES);
    assert_eq!(rt; ended.out.stream.taken.as_slice(), SAMPLE);
    assert_eq!(rt; ended.save.stream.taken.as_slice(), LEFT);
    Ok(())
}

#[test]
fn the_dump_fails_at_each_byte(rt: HostRuntime) -> Result<(), Fail> {
    for n in 0..SAMPLE.len() + 1 {
        let dump = source(SAMPLE, Some(n));
        let ended = run_without_out(rt.alloc(), dump, SCRIPT, Vec::new(rt.alloc()));
        assert_eq!(rt; ended.result, Err(RunFault::Read), "after {n} bytes");
        assert!(rt; ended.dump.failed);
        assert!(rt; ended.replies.stream.is_empty());
    }
    Ok(())
}

#[test]
fn the_script_fails_at_each_byte(rt: HostRuntime) -> Result<(), Fail> {
    for n in 0..SCRIPT.len() + 1 {
        let script = source(SCRIPT, Some(n));
        let (replies, out, save) = (
            Vec::new(rt.alloc()),
            Vec::new(rt.alloc()),
            Vec::new(rt.alloc()),
        );
        let ended = run_whole(rt.alloc(), SAMPLE, script, replies, out, save);
        assert_eq!(rt; ended.result, Err(RunFault::Read), "after {n} bytes");
        assert!(rt; ended.script.failed);
        assert!(rt; ended.replies.stream.is_empty());
        assert!(rt; ended.out.stream.is_empty());
        assert!(rt; ended.save.stream.is_empty());
    }
    Ok(())
}

/// A writer at a place among those of the replies, of the dump and of the session, which fails
/// after `limit` bytes if it is at the place `failing_at`.
fn sink_at(alloc: Global, place: usize, failing_at: usize, limit: usize, failing: Failing) -> Sink {
    if place == failing_at {
        sink(alloc, limit, failing)
    } else {
        sink(alloc, NEVER, Failing::WriteErrs)
    }
}

/// What the writer at a place takes of its text: all of it before the writer that fails after
/// `limit` bytes, and nothing after it.
fn taken_at(text: &'static [u8], place: usize, failing_at: usize, limit: usize) -> &'static [u8] {
    if place < failing_at {
        text
    } else if place == failing_at {
        text.get(..limit).unwrap_or(text)
    } else {
        &[]
    }
}

/// Whether the script on the sample ends with a fault where the writer at a place fails, which
/// alone is known to have failed.
fn ends_at(alloc: Global, place: usize, limit: usize, failing: Failing) -> bool {
    let replies = sink_at(alloc, 0, place, limit, failing);
    let out = sink_at(alloc, 1, place, limit, failing);
    let save = sink_at(alloc, 2, place, limit, failing);
    let ended = run_whole(alloc, SAMPLE, SCRIPT, replies, out, save);
    ended.result == Err(RunFault::Write)
        && ended.replies.failed == (place == 0)
        && ended.out.failed == (place == 1)
        && ended.save.failed == (place == 2)
        && ended.replies.stream.taken.as_slice() == taken_at(REPLIES, 0, place, limit)
        && ended.out.stream.taken.as_slice() == taken_at(SAMPLE, 1, place, limit)
        && ended.save.stream.taken.as_slice() == taken_at(LEFT, 2, place, limit)
}

/// The places of writers, their texts, and how each fails.
const WRITERS: &[(usize, &[u8], Failing)] = &[
    (0, REPLIES, Failing::WriteErrs),
    (0, REPLIES, Failing::WriteTakesNone),
    (0, REPLIES, Failing::FlushErrs),
    (1, SAMPLE, Failing::WriteErrs),
    (1, SAMPLE, Failing::WriteTakesNone),
    (1, SAMPLE, Failing::FlushErrs),
    (2, LEFT, Failing::WriteErrs),
    (2, LEFT, Failing::WriteTakesNone),
    (2, LEFT, Failing::FlushErrs),
];

/// After how many bytes a run ends otherwise, if it does: the writer at a place fails after each
/// number of bytes of its text, or at its flush.
fn ends_otherwise(alloc: Global, place: usize, text: &[u8], failing: Failing) -> Option<usize> {
    let limits = if failing == Failing::FlushErrs {
        NEVER..NEVER + 1
    } else {
        0..text.len()
    };
    for limit in limits {
        if !ends_at(alloc, place, limit, failing) {
            return Some(limit);
        }
    }
    None
}

#[test]
fn each_writer_fails_at_each_byte_and_at_its_flush(rt: HostRuntime) -> Result<(), Fail> {
    for (place, text, failing) in WRITERS {
        let otherwise = ends_otherwise(rt.alloc(), *place, text, *failing);
        assert_eq!(rt; otherwise, None, "writer {place}, {failing:?}");
    }
    Ok(())
}

#[test]
fn a_flush_fails(rt: HostRuntime) -> Result<(), Fail> {
    let replies = sink(rt.alloc(), NEVER, Failing::FlushErrs);
    let ended = run_without_out(rt.alloc(), SAMPLE, SCRIPT, replies);
    assert_eq!(rt; ended.result, Err(RunFault::Write));
    assert_eq!(rt; ended.replies.stream.taken.as_slice(), REPLIES);
    Ok(())
}

/// The writer that fails at its flush, and the one that does not, either way round.
const ONE_FLUSH_FAILS: [(Failing, Failing); 2] = [
    (Failing::FlushErrs, Failing::WriteErrs),
    (Failing::WriteErrs, Failing::FlushErrs),
];

/// The writer besides that of the replies is that of the dump, and then that of the session.
#[test]
fn a_flush_fails_where_one_output_is_asked_for(rt: HostRuntime) -> Result<(), Fail> {
    for (replies, other) in ONE_FLUSH_FAILS {
        let out = Some(sink(rt.alloc(), NEVER, other));
        let first = sink(rt.alloc(), NEVER, replies);
        let result = run_given(rt.alloc(), SAMPLE, SCRIPT, first, out, None::<Sink>);
        assert_eq!(rt; result, Err(RunFault::Write), "dump, {other:?}");
        let save = Some(sink(rt.alloc(), NEVER, other));
        let second = sink(rt.alloc(), NEVER, replies);
        let result = run_given(rt.alloc(), SAMPLE, SCRIPT, second, None::<Sink>, save);
        assert_eq!(rt; result, Err(RunFault::Write), "session, {other:?}");
    }
    Ok(())
}

#[test]
fn an_endless_dump(rt: HostRuntime) -> Result<(), Fail> {
    let endless = Zeros { given: 0 };
    let ended = run_without_out(rt.alloc(), endless, SCRIPT, Vec::new(rt.alloc()));
    let fault = DumpFault {
        offset: 0,
        kind: DumpFaultKind::TooLarge,
    };
    assert_eq!(rt; ended.result, Err(RunFault::Dump(fault)));
    assert_eq!(rt; ended.dump.stream.given, 16_777_217);
    Ok(())
}

#[test]
fn an_endless_script(rt: HostRuntime) -> Result<(), Fail> {
    let endless = Zeros { given: 0 };
    let ended = run_without_out(rt.alloc(), SAMPLE, endless, Vec::new(rt.alloc()));
    assert_eq!(rt; ended.result, Err(RunFault::TooLarge));
    assert_eq!(rt; ended.script.stream.given, 1_048_577);
    assert!(rt; ended.replies.stream.is_empty());
    Ok(())
}

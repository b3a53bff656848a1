//! Whole runs in which each growth is refused in turn.

use super::dumps::{Beginning, bytes_of};
use super::outcome::{Outcome, run_whole};
use std::alloc::Global;
use std::test::*;
use test_support::FailingAlloc;
use whole_run::RunFault;

const ON_SAMPLE: &[u8] =
    b"cost 0.0.0.0 1.1.1.1 1 65535\n# note\nfrob\ncost 0.0.0.0 1.1.1.1 1 0\nundo 2\nundo 1\n";

/// Each edit and command on the dump with a network, in branch 0 and in branch 1.
const ON_NETWORK: &[u8] = b"cost 0.0.0.0 1.1.1.1 1 11
drop-link 0.0.0.0 3.3.3.3 2
add-stub 0.0.0.0 1.1.1.1 10.9.0.0/16 3
add-summary 0.0.0.0 3.3.3.3 10.8.0.0/16 7
summary 0.0.0.0 3.3.3.3 10.8.0.0/16 9
refresh
add-external 3.3.3.3 10.30.0.0/16 1 5 10.5.0.77 0
add-external 3.3.3.3 10.31.0.0/16 1 5 10.30.0.1 0
table 1.1.1.1
drop-external 3.3.3.3 10.30.0.0/16
fail-link 0.0.0.0 1.1.1.1 4.4.4.4
fail-net 0.0.0.0 10.5.0.3
fail-router 4.4.4.4
undo 3
redo 1
tables
compare 1.1.1.1
info
@1 cost 0.0.0.0 1.1.1.1 1 11
@1 drop-link 0.0.0.0 3.3.3.3 2
@1 add-stub 0.0.0.0 1.1.1.1 10.9.0.0/16 3
@1 add-summary 0.0.0.0 3.3.3.3 10.8.0.0/16 7
@1 summary 0.0.0.0 3.3.3.3 10.8.0.0/16 9
@1 refresh
@1 add-external 3.3.3.3 10.30.0.0/16 1 5 10.5.0.77 0
@1 add-external 3.3.3.3 10.31.0.0/16 1 5 10.30.0.1 0
@1 table 1.1.1.1
@1 drop-external 3.3.3.3 10.30.0.0/16
@1 fail-link 0.0.0.0 1.1.1.1 4.4.4.4
@1 fail-net 0.0.0.0 10.5.0.3
@1 fail-router 4.4.4.4
@1 undo 3
@1 redo 1
@1 tables
@1 compare 1.1.1.1
@1 info
";

/// Redo, undo and an edit on the saved session, in branch 0 and in branch 1.
const ON_SAVED: &[u8] =
    b"info\nredo 1\nundo 2\nadd-stub 0.0.0.0 1.1.1.1 10.9.0.0/16 3\ntables\n@1 redo 1\n@1 info\n";

/// The same, where `refresh` rewrites a summary-LSA of 1.1.1.1, on the dump of two areas.
const ON_TWO_AREAS: &[u8] = b"cost 0.0.0.0 1.1.1.1 1 11
add-stub 0.0.0.1 1.1.1.1 10.9.0.0/16 3
drop-link 0.0.0.1 1.1.1.1 2
summary 0.0.0.0 2.2.2.2 10.20.0.0/16 16777215
add-summary 0.0.0.1 3.3.3.3 10.8.0.0/16 7
add-external 3.3.3.3 10.30.0.0/16 2 5 0.0.0.0 0
drop-external 3.3.3.3 10.30.0.0/16
refresh
table 1.1.1.1
fail-link 0.0.0.1 1.1.1.1 3.3.3.3
fail-net 0.0.0.0 10.5.0.3
fail-router 2.2.2.2
undo 2
redo 1
tables
compare 1.1.1.1
info
@1 cost 0.0.0.0 1.1.1.1 1 11
@1 add-stub 0.0.0.1 1.1.1.1 10.9.0.0/16 3
@1 drop-link 0.0.0.1 1.1.1.1 2
@1 summary 0.0.0.0 2.2.2.2 10.20.0.0/16 16777215
@1 add-summary 0.0.0.1 3.3.3.3 10.8.0.0/16 7
@1 add-external 3.3.3.3 10.30.0.0/16 2 5 0.0.0.0 0
@1 drop-external 3.3.3.3 10.30.0.0/16
@1 refresh
@1 table 1.1.1.1
@1 fail-link 0.0.0.1 1.1.1.1 3.3.3.3
@1 fail-net 0.0.0.0 10.5.0.3
@1 fail-router 2.2.2.2
@1 undo 2
@1 redo 1
@1 tables
@1 compare 1.1.1.1
@1 info
";

/// A run that asks for a dump and a session.
fn whole<'a>(
    failing: &'a FailingAlloc,
    alloc: Global,
    dump: &'a [u8],
    script: &'a [u8],
) -> Outcome<&'a [u8], &'a [u8], Vec<u8>, Vec<u8>, Vec<u8>> {
    let (replies, out, save) = (Vec::new(alloc), Vec::new(alloc), Vec::new(alloc));
    run_whole(failing, dump, script, replies, out, save)
}

/// Whether a run with this number of growths ends early because memory ran out, with a prefix of
/// these replies and no dump and no session.
fn ends_early(alloc: Global, growths: u64, dump: &[u8], script: &[u8], ample: &[u8]) -> bool {
    let failing = FailingAlloc::new(alloc, growths);
    let ended = whole(&failing, alloc, dump, script);
    ended.result == Err(RunFault::OutOfMemory)
        && ample.starts_with(ended.replies.stream.as_slice())
        && ended.out.stream.is_empty()
        && ended.save.stream.is_empty()
}

/// Whether a run ends early wherever one of its growths is refused, and well where none is.
fn ends_early_or_well(alloc: Global, dump: &[u8], script: &[u8]) -> bool {
    let counted = FailingAlloc::new(alloc, u64::MAX);
    let ample = whole(&counted, alloc, dump, script);
    let growths = u64::MAX - counted.remaining();
    for n in 0..growths {
        if !ends_early(alloc, n, dump, script, ample.replies.stream.as_slice()) {
            return false;
        }
    }
    let enough = FailingAlloc::new(alloc, growths);
    let ended = whole(&enough, alloc, dump, script);
    growths > 0
        && ended.result.is_ok()
        && ended.replies.stream.as_slice() == ample.replies.stream.as_slice()
        && ended.out.stream.as_slice() == ample.out.stream.as_slice()
        && ended.save.stream.as_slice() == ample.save.stream.as_slice()
}

/// The same of a run by what it begins at.
fn ends_well(alloc: Global, beginning: Beginning, script: &[u8]) -> Result<bool, Fail> {
    let bytes = bytes_of(alloc, beginning)?;
    Ok(ends_early_or_well(alloc, &bytes, script))
}

#[test]
fn each_growth_refused_on_the_sample_and_on_a_network(rt: HostRuntime) -> Result<(), Fail> {
    assert!(rt;
        ends_well(rt.alloc(), Beginning::Sample, ON_SAMPLE)?,
        "sample"
    );
    assert!(rt;
        ends_well(rt.alloc(), Beginning::Network, ON_NETWORK)?,
        "network"
    );
    Ok(())
}

#[test]
fn each_growth_refused_on_two_areas_and_on_a_saved_session(rt: HostRuntime) -> Result<(), Fail> {
    assert!(rt;
        ends_well(rt.alloc(), Beginning::TwoAreas, ON_TWO_AREAS)?,
        "two areas"
    );
    assert!(rt;
        ends_well(rt.alloc(), Beginning::Saved, ON_SAVED)?,
        "saved session"
    );
    Ok(())
}

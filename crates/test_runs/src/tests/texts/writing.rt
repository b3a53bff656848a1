//! Whole texts that are written.

use super::text::{NEVER, TEXT};
use host_io::{Watched, WriteFault, write_whole};
use std::alloc::Global;
use std::test::Fail;
use test_support::{Failing, Sink};

/// A writer that takes this number of bytes at once and fails at a place.
#[derive(Clone, Copy)]
struct Taking {
    step: usize,
    end: usize,
    failing: Failing,
}

/// What comes of a text and of an empty one after it, whether the writer is known to have failed,
/// and what it has taken.
fn written(alloc: Global, taking: Taking) -> (Result<(), WriteFault>, bool, Vec<u8>) {
    let Taking { step, end, failing } = taking;
    let mut writer = Watched::new(Sink::new(alloc, step, end, failing));
    let answer = match write_whole(&mut writer, TEXT) {
        Ok(()) => write_whole(&mut writer, b""),
        fault => fault,
    };
    let failed = writer.failed();
    (answer, failed, writer.into_inner().taken)
}

#[test]
fn writes_whole_texts_in_short_pieces(rt: HostRuntime) -> Result<(), Fail> {
    for step in [1, 2, 3, 7, NEVER] {
        let failing = Failing::WriteErrs;
        let taking = Taking {
            step,
            end: NEVER,
            failing,
        };
        let (answer, failed, taken) = written(rt.alloc(), taking);
        assert_eq!(rt; (answer, failed), (Ok(()), false), "by {step}");
        assert_eq!(rt; taken.as_slice(), TEXT, "by {step}");
    }
    Ok(())
}

#[test]
fn a_writer_fails_at_each_byte(rt: HostRuntime) -> Result<(), Fail> {
    for failing in [Failing::WriteErrs, Failing::WriteTakesNone] {
        for step in [1, 4, NEVER] {
            for end in 0..TEXT.len() {
                let (answer, failed, taken) = written(rt.alloc(), Taking { step, end, failing });
                let found = (answer, failed, taken.as_slice());
                let wanted = (Err(WriteFault), true, &TEXT[..end]);
                assert_eq!(rt; found, wanted, "at {end} by {step}, {failing:?}");
            }
        }
    }
    Ok(())
}

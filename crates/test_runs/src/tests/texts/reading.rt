//! Whole texts that are read.

use super::text::{NEVER, TEXT};
use host_io::{ReadFault, Watched, read_more, read_whole};
use std::alloc::{AllocError, Global};
use std::test::Fail;
use test_support::{Source, Zeros};

/// Whether a text is what is read of it up to a limit, or why nothing is, from a reader that gives
/// this number of bytes at once and fails at a place; and whether the reader is known to have
/// failed.
fn read(
    alloc: Global,
    text: &[u8],
    step: usize,
    end: Option<usize>,
    limit: u16,
) -> (Result<bool, ReadFault>, bool) {
    let mut reader = Watched::new(Source::new(text, step, end));
    let read = match read_whole(alloc, &mut reader, usize::from(limit)) {
        Ok(read) => Ok(read.as_slice() == text),
        Err(fault) => Err(fault),
    };
    (read, reader.failed())
}

/// This number of bytes 0.
fn zeros(alloc: Global, count: usize) -> Result<Vec<u8>, AllocError> {
    vec![in alloc; 0u8; count]
}

#[test]
fn reads_whole_texts_in_short_pieces(rt: HostRuntime) -> Result<(), Fail> {
    for step in [1, 2, 3, 7, NEVER] {
        let found = read(rt.alloc(), TEXT, step, None, 100);
        assert_eq!(rt; found, (Ok(true), false), "by {step}");
    }
    Ok(())
}

#[test]
fn a_reader_fails_at_each_byte(rt: HostRuntime) -> Result<(), Fail> {
    for step in [1, 4, NEVER] {
        for n in 0..=TEXT.len() {
            let found = read(rt.alloc(), TEXT, step, Some(n), 100);
            assert_eq!(rt; found, (Err(ReadFault::Failed), true), "at {n} by {step}");
        }
    }
    Ok(())
}

/// Limits of texts.
const LIMITS: [u16; 6] = [0, 1, 4095, 4096, 4097, 8192];

#[test]
fn reads_one_byte_past_the_limit_of_an_endless_reader(rt: HostRuntime) -> Result<(), Fail> {
    for limit in [0, 1, 4094, 4095, 4096, 4097, 100_000] {
        let mut reader = Watched::new(Zeros { given: 0 });
        let fault = read_whole(rt.alloc(), &mut reader, limit).err();
        assert_eq!(rt; fault, Some(ReadFault::TooLarge), "limit {limit}");
        assert_eq!(rt; reader.into_inner().given, limit as u64 + 1);
    }
    Ok(())
}

/// How many bytes of a text of ten more than a limit are there when it is read up to the limit,
/// where they are then too many, and again up to the last but one, and up to the last it is whole.
fn read_on(alloc: Global, text: &[u8], step: usize, limit: u16) -> Option<usize> {
    let limit = usize::from(limit);
    let mut reader = Watched::new(Source::new(text, step, None));
    let mut bytes = Vec::new(alloc);
    let Err(ReadFault::TooLarge) = read_more(&mut reader, &mut bytes, limit) else {
        return None;
    };
    let read = bytes.len();
    let Err(ReadFault::TooLarge) = read_more(&mut reader, &mut bytes, limit + 9) else {
        return None;
    };
    read_more(&mut reader, &mut bytes, limit + 10).ok()?;
    (bytes.as_slice() == text).then_some(read)
}

/// Texts of bytes 0: as long as the limit, one byte longer, and ten bytes longer and read on.
#[test]
fn reads_a_text_up_to_a_limit_and_on(rt: HostRuntime) -> Result<(), Fail> {
    for limit in LIMITS {
        let length = usize::from(limit);
        let zeros = zeros(rt.alloc(), length + 10)?;
        let whole = zeros.get(..length).ok_or("a text")?;
        let longer = zeros.get(..length + 1).ok_or("a longer text")?;
        for step in [1000, NEVER] {
            let found = read(rt.alloc(), whole, step, None, limit);
            assert_eq!(rt; found, (Ok(true), false), "limit {limit} by {step}");
            let found = read(rt.alloc(), longer, step, None, limit);
            let past = (Err(ReadFault::TooLarge), false);
            assert_eq!(rt; found, past, "past limit {limit} by {step}");
            let read = read_on(rt.alloc(), &zeros, step, limit);
            assert_eq!(rt; read, Some(length + 1), "on from {limit} by {step}");
        }
    }
    Ok(())
}

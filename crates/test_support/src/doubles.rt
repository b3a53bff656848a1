//! Readers and writers for tests: they move a few bytes per call, and fail on request.

ghost use Rattle.std.specs.Prelude.{◌≡◌, ◌+◌, ◌%◌, ◌^◌, ◌++◌, ◌↔◌, min, length, take, drop, replicate, true, [], IsErr, IfOk, IfErr};
ghost use Rattle.std.specs.Result.{result_unwrap_or};
ghost use Rattle.std.specs.Io.{ReadsAtMost, WritesAtMost};
ghost use Rattle.std.specs.Io.KnownBytes.{Keeps, ReadConsumes, WriteAppends};
ghost use Rattle.std.specs.IoError.{error_kind};
ghost use Rattle.test_support.specs.Doubles.{up_to, nearer, errs_at_writes, errs_at_flushes, taken_count};

use std::alloc::Global;
use std::io;
use std::io::{ErrorKind, Read, Write};

/// A reader that gives a text, at most `step` bytes per call, and fails in place of the byte at
/// `fails_at`, or in place of the end where `fails_at` is the length of the text.
#[derive(Drop)]
pub struct Source<'a> {
    left: &'a [u8],
    step: usize,
    fails_at: Option<usize>,
}

impl<'a> Source<'a> {
    /// A reader that gives `text`, and fails at `fails_at`, if it is given.
    pub fn new(text: &'a [u8], step: usize, fails_at: Option<usize>) -> Source<'a>
        ensures left { result.left.now ≡ text.now }
        ensures step { result.step ≡ step }
        ensures fails_at { result.fails_at ≡ fails_at }
    {
        Source {
            left: text,
            step,
            fails_at,
        }
    }
}

impl Read for Source<'_> {
    fn read(&mut self, buf: &mut [u8]) -> io::Result<usize>
        ensures bound { ReadsAtMost result buf.new }
        ensures bytes { ReadConsumes None None result buf.new }
        ensures fails { IsErr result ↔ (self.old.fails_at ≡ Some 0) }
        ensures kind { IfErr result (λ e. error_kind e ≡ ErrorKind.Interrupted) }
        ensures count { IfOk result (λ n. n ≡ up_to self.old.fails_at
            (min (min self.old.step (length buf.old)) (length self.old.left.now))) }
        ensures given { let n = result_unwrap_or result 0 in
            buf.new ≡ take n self.old.left.now ++ drop n buf.old }
        ensures left { self.new.left.now ≡ drop (result_unwrap_or result 0) self.old.left.now }
        ensures step { self.new.step ≡ self.old.step }
        ensures fails_at { self.new.fails_at ≡
            nearer (result_unwrap_or result 0) self.old.fails_at }
    {
        let mut wanted = self.step.min(buf.len()).min(self.left.len());
        if let Some(before) = self.fails_at {
            if before == 0 {
                return Err(io::Error::from(ErrorKind::Interrupted));
            }
            wanted = wanted.min(before);
            self.fails_at = Some(before - wanted);
        }
        let (now, later) = self.left.split_at(wanted);
        buf[..wanted].copy_from_slice(now);
        self.left = later;
        Ok(wanted)
    }
}

/// A reader that fails at its first call and is at its end at each later one. It counts the calls.
#[derive(Drop)]
pub struct FailsOnce {
    /// The calls so far.
    pub calls: u64,
}

impl Read for FailsOnce {
    fn read(&mut self, _buf: &mut [u8]) -> io::Result<usize>
        ensures bound { ReadsAtMost result _buf.new }
        ensures bytes { ReadConsumes None None result _buf.new }
        ensures calls { self.new.calls ≡ (self.old.calls + 1) % 2 ^ 64 }
        ensures fails { IsErr result ↔ (self.new.calls ≡ 1) }
        ensures at_end { IfOk result (λ n. n ≡ 0) }
        ensures untouched { _buf.new ≡ _buf.old }
    {
        self.calls = self.calls.wrapping_add(1);
        if self.calls == 1 {
            return Err(io::Error::from(ErrorKind::Interrupted));
        }
        Ok(0)
    }
}

/// A reader that gives zeros without end, and counts them.
#[derive(Drop)]
pub struct Zeros {
    /// The zeros given so far.
    pub given: u64,
}

impl Read for Zeros {
    fn read(&mut self, buf: &mut [u8]) -> io::Result<usize>
        ensures bound { ReadsAtMost result buf.new }
        ensures bytes { ReadConsumes None None result buf.new }
        ensures count { result ≡ Ok (length buf.old) }
        ensures zeros { buf.new ≡ replicate (length buf.old) 0 }
        ensures given { self.new.given ≡ (self.old.given + length buf.old) % 2 ^ 64 }
    {
        buf.fill(0);
        self.given = self.given.wrapping_add(buf.len() as u64);
        Ok(buf.len())
    }
}

/// How a writer fails.
#[derive(Clone, Copy, Debug, PartialEq, Eq)]
pub enum Failing {
    /// A write returns an error.
    WriteErrs,
    /// A write takes no byte.
    WriteTakesNone,
    /// A flush returns an error.
    FlushErrs,
}

/// A writer that takes at most `step` bytes per call, and fails in place of the byte at `fails_at`,
/// or at the flush.
#[derive(Drop)]
pub struct Sink {
    /// The bytes that it took.
    pub taken: Vec<u8>,
    step: usize,
    fails_at: usize,
    failing: Failing,
}

impl Sink {
    /// A writer that has taken nothing.
    pub fn new(alloc: Global, step: usize, fails_at: usize, failing: Failing) -> Sink
        ensures taken { result.taken.items ≡ [] }
        ensures step { result.step ≡ step }
        ensures fails_at { result.fails_at ≡ fails_at }
        ensures failing { result.failing ≡ failing }
    {
        Sink {
            taken: Vec::new(alloc),
            step,
            fails_at,
            failing,
        }
    }
}

impl Write for Sink {
    fn write(&mut self, text: &[u8]) -> io::Result<usize>
        ensures bound { WritesAtMost result text.now }
        ensures bytes { WriteAppends None None result text.now }
        ensures fails { taken_count self.old (length text.now) ≡ 0
            → errs_at_writes self.old.failing ≡ true → IsErr result }
        ensures count { IfOk result (λ n. n ≡ taken_count self.old (length text.now)) }
        ensures taken { self.new.taken.items
            ≡ self.old.taken.items ++ take (result_unwrap_or result 0) text.now }
        ensures step { self.new.step ≡ self.old.step }
        ensures fails_at { self.new.fails_at ≡ self.old.fails_at }
        ensures failing { self.new.failing ≡ self.old.failing }
    {
        let room = self.fails_at.saturating_sub(self.taken.len());
        let count = self.step.min(text.len()).min(room);
        if count == 0 && self.failing == Failing::WriteErrs {
            return Err(io::Error::from(ErrorKind::Interrupted));
        }
        self.taken.extend_from_slice(&text[..count])?;
        Ok(count)
    }

    fn flush(&mut self) -> io::Result<()>
        ensures bytes { Keeps None None }
        ensures fails { IsErr result ↔ (errs_at_flushes self.old.failing ≡ true) }
        ensures unchanged { self.new ≡ self.old }
    {
        if self.failing == Failing::FlushErrs {
            return Err(io::Error::from(ErrorKind::Interrupted));
        }
        Ok(())
    }
}

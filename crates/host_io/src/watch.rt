//! A reader or a writer that remembers whether it has failed, has ended and is flushed.

ghost use Rattle.std.specs.Prelude.{◌≡◌, ◌||◌, false, is_err, is_ok};
ghost use Rattle.std.specs.Io.{ReadsAtMost, WritesAtMost};
ghost use Rattle.std.specs.Io.KnownBytes.{Keeps, ReadConsumes, WriteAppends};
ghost use Rattle.host_io.specs.Watched.{inner_of, has_failed, has_ended, is_flushed, is_failed_write, is_end};

use std::io;
use std::io::{Read, Write};

/// A reader or a writer, and what the calls that went through here showed of it: whether one has
/// failed, whether a read has found the end, and whether it was flushed after the last write.
///
/// `read`, `write` and `flush` each make one call of the reader or writer inside and hand on its
/// answer. `Watched` is itself no `Read` and no `Write`: the helpers of those traits call again
/// after an `Interrupted`, so they could answer `Ok` after a call that failed here.
#[derive(Drop)]
pub struct Watched<T> {
    inner: T,
    failed: bool,
    ended: bool,
    flushed: bool,
}

impl<T> Watched<T> {
    /// Watches a reader or a writer, which has not failed yet, nor ended, and is not flushed.
    pub fn new(inner: T) -> Watched<T>
        ensures inner { inner_of result ≡ inner }
        ensures fresh { has_failed result ≡ false }
        ensures begins { has_ended result ≡ false }
        ensures unflushed { is_flushed result ≡ false }
    {
        Watched {
            inner,
            failed: false,
            ended: false,
            flushed: false,
        }
    }

    /// Gives back the reader or writer inside.
    pub fn into_inner(self) -> T
        ensures { result ≡ inner_of self }
    {
        let Watched { inner, .. } = self;
        inner
    }

    /// Whether a read, a write or a flush has failed so far: one that answered an error, or a
    /// write that took 0 bytes of a text that is not empty.
    pub fn failed(&self) -> bool
        ensures { result ≡ has_failed self.now }
    {
        self.failed
    }

    /// Whether a read has found the end so far: one that gave 0 bytes where there was room.
    pub fn ended(&self) -> bool
        ensures { result ≡ has_ended self.now }
    {
        self.ended
    }

    /// Whether it was flushed, without a failure, and nothing was written since.
    pub fn flushed(&self) -> bool
        ensures { result ≡ is_flushed self.now }
    {
        self.flushed
    }
}

impl<R: Read> Watched<R> {
    /// One read into `buf`: the number of bytes that stand at its front now, 0 at the end.
    ///
    /// An error is handed on, `Interrupted` too, and is remembered, as is the end.
    pub fn read(&mut self, buf: &mut [u8]) -> io::Result<usize>
        ensures bound { ReadsAtMost result buf.new }
        ensures bytes { ReadConsumes (R.remaining (inner_of self.old))
            (R.remaining (inner_of self.new)) result buf.new }
        ensures failed { has_failed self.new ≡ (has_failed self.old || is_err result) }
        ensures ended { has_ended self.new ≡ (has_ended self.old || is_end result buf.new) }
        ensures flushed { is_flushed self.new ≡ is_flushed self.old }
    {
        let count = self.inner.read(buf);
        self.failed |= count.is_err();
        self.ended |= match &count {
            Ok(count) => *count == 0 && !buf.is_empty(),
            Err(_) => false,
        };
        count
    }
}

impl<W: Write> Watched<W> {
    /// One write of `text`: the number of bytes at its front that were taken.
    ///
    /// An error is handed on, `Interrupted` too, and is remembered, as is a write that took 0 bytes
    /// of a text that is not empty.
    pub fn write(&mut self, text: &[u8]) -> io::Result<usize>
        ensures bound { WritesAtMost result text.now }
        ensures bytes { WriteAppends (W.contents (inner_of self.old))
            (W.contents (inner_of self.new)) result text.now }
        ensures failed { has_failed self.new ≡
            (has_failed self.old || is_failed_write result text.now) }
        ensures ended { has_ended self.new ≡ has_ended self.old }
        ensures flushed { is_flushed self.new ≡ false }
    {
        self.flushed = false;
        let taken = self.inner.write(text);
        self.failed |= match &taken {
            Ok(count) => *count == 0 && !text.is_empty(),
            Err(_) => true,
        };
        taken
    }

    /// Flushes the writer inside. An error is handed on and is remembered.
    pub fn flush(&mut self) -> io::Result<()>
        ensures bytes { Keeps (W.contents (inner_of self.old)) (W.contents (inner_of self.new)) }
        ensures failed { has_failed self.new ≡ (has_failed self.old || is_err result) }
        ensures ended { has_ended self.new ≡ has_ended self.old }
        ensures flushed { is_flushed self.new ≡ is_ok result }
    {
        let flushed = self.inner.flush();
        self.failed |= flushed.is_err();
        self.flushed = flushed.is_ok();
        flushed
    }
}

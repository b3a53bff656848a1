//! A whole text read from a watched reader.

ghost use Rattle.std.specs.Prelude.{◌≡◌, ◌+◌, ◌-◌, ◌<◌, ◌≤◌, ◌^◌, ◌↔◌, false, true, vec_len, IfOk, OnOk, is_ok, ◌||◌};
ghost use Rattle.std.specs.Io.KnownBytes.{IsAtEnd};
ghost use Rattle.host_io.specs.declared.reading.ReadFault.TheVariants.{OutOfMemory};
ghost use Rattle.host_io.specs.Watched.{inner_of, has_failed, has_ended};
ghost use Rattle.host_io.specs.WholeText.{IsAll, IsLonger, ConsumesAtMost, ReadsAfter};

use crate::watch::Watched;
use std::alloc::{AllocError, Allocator};
use std::io::Read;

/// Why a text was not read whole.
#[derive(Clone, Copy, Debug, PartialEq, Eq)]
pub enum ReadFault {
    /// A read failed.
    Failed,
    /// The reader has more bytes than the limit.
    TooLarge,
    /// There was no memory for what was read.
    OutOfMemory,
}

impl From<AllocError> for ReadFault {
    ghost from_gives = { λ _ fault. fault ≡ OutOfMemory };

    fn from(_error: AllocError) -> ReadFault {
        ReadFault::OutOfMemory
    }
}

/// How many bytes one read may give.
const CHUNK: usize = 4096;

/// Reads on after the bytes that were read before, where there are at most `limit` in all.
///
/// At most one byte past the limit is read, so reading ends for an endless reader too. After
/// `TooLarge` one may read on, up to another limit.
///
/// # Errors
///
/// `Failed` exactly where a read failed, `TooLarge` where there are more than `limit` bytes, with
/// what was read after the others, and `OutOfMemory` where a growth was refused.
pub fn read_more<A: Allocator + Copy, R: Read>(
    reader: &mut Watched<R>,
    bytes: &mut Vec<u8, A>,
    limit: usize,
) -> Result<(), ReadFault>
    requires open { has_failed reader.old ≡ false }
    requires limit { limit + 1 < 2 ^ 64 }
    ensures whole { OnOk result (ReadsAfter (R.remaining (inner_of reader.old))
        (R.remaining (inner_of reader.new)) bytes.old.items bytes.new.items) }
    ensures within { OnOk result (vec_len bytes.new ≤ limit) }
    ensures at_end { OnOk result (IsAtEnd (R.remaining (inner_of reader.new))) }
    ensures ended { has_ended reader.new ≡ (has_ended reader.old || is_ok result) }
    ensures too_large { result ≡ Err ReadFault.TooLarge
        → ReadsAfter (R.remaining (inner_of reader.old))
        (R.remaining (inner_of reader.new)) bytes.old.items bytes.new.items
        × (limit < vec_len bytes.new) }
    ensures failed { (result ≡ Err ReadFault.Failed) ↔ (has_failed reader.new ≡ true) }
    ensures bounded { ConsumesAtMost (R.remaining (inner_of reader.old))
        (R.remaining (inner_of reader.new)) (limit + 1 - vec_len bytes.old) }
{
    let mut chunk = [0u8; CHUNK];
    'chunks: while bytes.len() <= limit {
        let room = (limit + 1 - bytes.len()).min(CHUNK);
        let Ok(count) = reader.read(&mut chunk[..room]) else {
            return Err(ReadFault::Failed);
        };
        if count == 0 {
            return Ok(());
        }
        bytes.extend_from_slice(&chunk[..count])?;
    }
    Err(ReadFault::TooLarge)
}

/// All bytes of a reader, where there are at most `limit`.
///
/// At most one byte past the limit is read, so reading ends for an endless reader too.
///
/// # Errors
///
/// `Failed` exactly where a read failed, `TooLarge` only where the reader has more than `limit`
/// bytes, and `OutOfMemory` where a growth was refused. What was read before is then lost.
pub fn read_whole<A: Allocator + Copy, R: Read>(
    alloc: A,
    reader: &mut Watched<R>,
    limit: usize,
) -> Result<Vec<u8, A>, ReadFault>
    requires open { has_failed reader.old ≡ false }
    requires limit { limit + 1 < 2 ^ 64 }
    ensures whole { IfOk result (λ bytes. IsAll (R.remaining (inner_of reader.old)) bytes.items) }
    ensures within { IfOk result (λ bytes. vec_len bytes ≤ limit) }
    ensures at_end { OnOk result (IsAtEnd (R.remaining (inner_of reader.new))) }
    ensures ended { has_ended reader.new ≡ (has_ended reader.old || is_ok result) }
    ensures too_large { result ≡ Err ReadFault.TooLarge
        → IsLonger (R.remaining (inner_of reader.old)) limit }
    ensures failed { (result ≡ Err ReadFault.Failed) ↔ (has_failed reader.new ≡ true) }
    ensures bounded { ConsumesAtMost (R.remaining (inner_of reader.old))
        (R.remaining (inner_of reader.new)) (limit + 1) }
{
    let mut bytes = Vec::new(alloc);
    read_more(reader, &mut bytes, limit)?;
    Ok(bytes)
}

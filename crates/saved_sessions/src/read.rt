//! The numbers of a session.

ghost use Rattle.std.specs.Prelude.{◌≡◌, ◌+◌, ◌≤◌, length, IfOk, OnOk};
ghost use Rattle.std.specs.Int.{w16};
ghost use Rattle.lsdb.specs.Loading.{number_at};
ghost use Rattle.edit_history.specs.Session.{most_edits};
ghost use Rattle.saved_sessions.specs.Opening.{position_after, counts_at};
ghost use Rattle.saved_sessions.specs.steps.Reading.{Gives};

use lsdb::{DumpFault, DumpFaultKind};

/// The edits that may be done at a time.
const MOST_EDITS: u16 = 10_000;

/// Want of memory, which is reported at 0.
pub(crate) const OUT_OF_MEMORY: DumpFault = DumpFault {
    offset: 0,
    kind: DumpFaultKind::OutOfMemory,
};

/// The fault at an offset.
pub(crate) fn fault(offset: usize, kind: DumpFaultKind) -> DumpFault
    ensures { result ≡ record { offset = offset; kind = kind } }
{
    DumpFault { offset, kind }
}

/// The number of two bytes after this number of bytes.
fn read_number(bytes: &[u8], offset: usize) -> Result<u16, DumpFault>
    requires { offset ≤ length bytes.now }
    ensures number { Gives (λ number. (number, position_after (offset + 2) bytes.now))
        result (number_at w16 (position_after offset bytes.now)) }
    ensures within { OnOk result (offset + 2 ≤ length bytes.now) }
{
    let rest = &bytes[offset..];
    if rest.len() < 2 {
        return Err(fault(offset, DumpFaultKind::Truncated));
    }
    Ok(u16::from_be_bytes([rest[0], rest[1]]))
}

/// How many edits are done and how many are undone, and the offset after these numbers.
#[tactic(auto, unfolding(crate::specs::Opening::counts_at))]
pub(crate) fn read_counts(bytes: &[u8], offset: usize) -> Result<(u16, u16, usize), DumpFault>
    requires { offset ≤ length bytes.now }
    ensures counts { Gives (λ x. (x.0, x.1, position_after x.2 bytes.now))
        result (counts_at (position_after offset bytes.now)) }
    ensures few { IfOk result (λ x. x.0 + x.1 ≤ most_edits) }
    ensures within { IfOk result (λ x. x.2 ≤ length bytes.now) }
{
    let done = read_number(bytes, offset)?;
    let undone = read_number(bytes, offset + 2)?;
    if u32::from(MOST_EDITS) < u32::from(done) + u32::from(undone) {
        return Err(fault(offset, DumpFaultKind::BadHistory(MOST_EDITS)));
    }
    Ok((done, undone, offset + 2 + 2))
}

//! The numbers of a dump.

ghost use Rattle.std.specs.Prelude.{◌≡◌, ◌≤◌, length};
ghost use Rattle.std.specs.Int.{w8, w16, w32};
ghost use Rattle.lsdb.specs.steps.Reading.{at_of, Reads};
ghost use Rattle.lsdb.specs.Loading.{number_at, advanced};

use crate::cursor::Cursor;
use crate::fault::{DumpFault, DumpFaultKind};

/// The fault at a position.
pub(crate) fn fault(at: Cursor<'_>, kind: DumpFaultKind) -> DumpFault
    ensures { result ≡ record { offset = at.entry.offset; kind = kind } }
{
    DumpFault {
        offset: at.offset,
        kind,
    }
}

/// The position this number of bytes further on.
pub(crate) fn advanced(at: Cursor<'_>, count: usize) -> Cursor<'_>
    requires { count ≤ length at.rest.now }
    ensures { at_of result ≡ advanced count (at_of at.entry) }
{
    Cursor {
        offset: at.offset + count,
        rest: &at.rest[count..],
    }
}

/// The byte at a position, and the position after it.
pub(crate) fn read_u8(at: Cursor<'_>) -> Result<(u8, Cursor<'_>), DumpFault>
    ensures { Reads (λ x. (x.0, at_of x.1)) result (number_at w8 (at_of at.entry)) }
{
    if at.rest.is_empty() {
        return Err(fault(at, DumpFaultKind::Truncated));
    }
    Ok((at.rest[0], advanced(at, 1)))
}

/// The number of two bytes at a position, and the position after it.
pub(crate) fn read_u16(at: Cursor<'_>) -> Result<(u16, Cursor<'_>), DumpFault>
    ensures { Reads (λ x. (x.0, at_of x.1)) result (number_at w16 (at_of at.entry)) }
{
    if at.rest.len() < 2 {
        return Err(fault(at, DumpFaultKind::Truncated));
    }
    let number = u16::from_be_bytes([at.rest[0], at.rest[1]]);
    Ok((number, advanced(at, 2)))
}

/// The number of four bytes at a position, and the position after it.
pub(crate) fn read_u32(at: Cursor<'_>) -> Result<(u32, Cursor<'_>), DumpFault>
    ensures { Reads (λ x. (x.0, at_of x.1)) result (number_at w32 (at_of at.entry)) }
{
    if at.rest.len() < 4 {
        return Err(fault(at, DumpFaultKind::Truncated));
    }
    let number = u32::from_be_bytes([at.rest[0], at.rest[1], at.rest[2], at.rest[3]]);
    Ok((number, advanced(at, 4)))
}

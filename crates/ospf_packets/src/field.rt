//! Numbers at offsets, the highest byte first (RFC 2328, A.1; RFC 791, appendix B).

ghost use Rattle.std.specs.Prelude.{◌≡◌, ◌+◌, ◌≤◌, length};
ghost use Rattle.lsa_codec.specs.Fields.{number_at};

use byteorder::{BigEndian, ByteOrder};

/// The number in the two bytes from an offset on.
pub(crate) fn u16_at(bytes: &[u8], offset: usize) -> u16
    requires { offset + 2 ≤ length bytes.now }
    ensures { result ≡ number_at 2 offset bytes.now }
{
    BigEndian::read_u16(&bytes[offset..])
}

/// The number in the four bytes from an offset on.
pub(crate) fn u32_at(bytes: &[u8], offset: usize) -> u32
    requires { offset + 4 ≤ length bytes.now }
    ensures { result ≡ number_at 4 offset bytes.now }
{
    BigEndian::read_u32(&bytes[offset..])
}

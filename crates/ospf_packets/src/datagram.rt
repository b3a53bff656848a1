//! IPv4 datagrams that carry OSPF (RFC 791, 3.1; RFC 2328, A.1).

ghost use Rattle.std.specs.Prelude.{◌≡◌, ◌≤◌, length, Ok, Err, true, MatchResult};
ghost use Rattle.ospf_packets.specs.Datagrams.{datagram_text, header_length_of, total_length_of, has_lengths, datagram_in, other_protocol, ipv4_of};

use crate::field::{u16_at, u32_at};
use findings::FrameWarning;

/// The length in bytes of the shortest header of a datagram.
const SHORTEST_HEADER: usize = 20;

/// The protocol number of OSPF.
const OSPF: u8 = 89;

/// The protocol number of GRE, which may carry other datagrams (RFC 2784).
const GRE: u8 = 47;

/// A datagram, or a fragment of one.
#[derive(Clone, Copy, Debug)]
pub(crate) struct Datagram<'a> {
    /// Source Address.
    pub(crate) source: u32,
    /// Destination Address.
    pub(crate) destination: u32,
    /// Identification: what the fragments of one datagram have in common.
    pub(crate) identification: u16,
    /// The number of bytes of the payload before those of this fragment.
    pub(crate) before: u32,
    /// Whether fragments follow this one.
    pub(crate) more: bool,
    /// Whether all bytes of it are at hand.
    pub(crate) whole: bool,
    /// The bytes of the payload that are at hand.
    pub(crate) payload: &'a [u8],
}

/// The length in bytes of the header.
fn header_length_of(bytes: &[u8]) -> usize
    requires { 20 ≤ length bytes.now }
    ensures { result ≡ header_length_of bytes.now }
{
    usize::from(bytes[0] % 16) * 4
}

/// The length in bytes of header and payload.
fn total_length_of(bytes: &[u8]) -> usize
    requires { 20 ≤ length bytes.now }
    ensures { result ≡ total_length_of bytes.now }
{
    usize::from(u16_at(bytes, 2))
}

/// Whether the lengths are possible.
fn has_lengths(is_cut: bool, bytes: &[u8]) -> bool
    requires { 20 ≤ length bytes.now }
    ensures { result ≡ has_lengths is_cut bytes.now }
{
    let header = header_length_of(bytes);
    let total = total_length_of(bytes);
    SHORTEST_HEADER <= header && header <= total && (is_cut || total <= bytes.len())
}

/// The datagram at the front of bytes that have its header.
fn datagram_in(bytes: &[u8]) -> Datagram<'_>
    requires long { 20 ≤ length bytes.now }
    requires header { header_length_of bytes.now ≤ length bytes.now }
    requires total { header_length_of bytes.now ≤ total_length_of bytes.now }
    ensures { datagram_text result ≡ datagram_in bytes.now }
{
    let header = header_length_of(bytes);
    let total = total_length_of(bytes);
    let flags_and_offset = u16_at(bytes, 6);
    Datagram {
        source: u32_at(bytes, 12),
        destination: u32_at(bytes, 16),
        identification: u16_at(bytes, 4),
        before: u32::from(flags_and_offset % 8192) * 8,
        more: flags_and_offset / 8192 % 2 == 1,
        whole: total <= bytes.len(),
        payload: &bytes[header..total.min(bytes.len())],
    }
}

/// Why a datagram of another protocol is not used.
fn other_protocol(protocol: u8) -> FrameWarning
    ensures { result ≡ other_protocol protocol }
{
    if protocol == GRE {
        FrameWarning::Encapsulated
    } else {
        FrameWarning::NotOspf
    }
}

/// The OSPF datagram in the bytes that a frame carries.
pub(crate) fn ipv4_of(is_cut: bool, bytes: &[u8]) -> Result<Datagram<'_>, FrameWarning>
    ensures { MatchResult result
        (λ datagram. ipv4_of is_cut bytes.now ≡ Ok (datagram_text datagram))
        (λ warning. ipv4_of is_cut bytes.now ≡ Err warning) }
{
    if bytes.len() < SHORTEST_HEADER {
        return Err(FrameWarning::Truncated);
    }
    if bytes[0] / 16 != 4 {
        return Err(FrameWarning::NotIpv4);
    }
    if bytes[9] != OSPF {
        return Err(other_protocol(bytes[9]));
    }
    if !has_lengths(is_cut, bytes) {
        return Err(FrameWarning::BadLength);
    }
    if bytes.len() < header_length_of(bytes) {
        return Err(FrameWarning::Truncated);
    }
    Ok(datagram_in(bytes))
}

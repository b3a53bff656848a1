//! OSPF packets of version 2 (RFC 2328, A.3.1).

ghost use Rattle.std.specs.Prelude.{◌≡◌, ◌≤◌, ◌<◌, ◌^◌, length, Ok, Err, true, MatchResult, IfOk};
ghost use Rattle.ospf_packets.specs.Packets.{packet_text, lack, packet_length_of, has_length, packet_in, summed, ospf_of};

use crate::checksum::is_checksum_good;
use crate::field::u16_at;
use findings::FrameWarning;

/// The length in bytes of the header of a packet.
pub(crate) const PACKET_HEADER: usize = 24;

/// A packet of version 2.
#[derive(Clone, Copy, Debug)]
pub(crate) struct Packet<'a> {
    /// Whether all bytes of it are at hand.
    pub(crate) whole: bool,
    /// The bytes that are at hand, its header among them.
    pub(crate) bytes: &'a [u8],
}

/// Why bytes are missing: a wrong length, where the frame is whole, and else a cut.
pub(crate) fn lack(whole: bool) -> FrameWarning
    ensures { result ≡ lack whole }
{
    if whole {
        FrameWarning::BadLength
    } else {
        FrameWarning::Truncated
    }
}

/// The length of the packet in bytes.
fn packet_length_of(payload: &[u8]) -> usize
    requires { 24 ≤ length payload.now }
    ensures same { result ≡ packet_length_of payload.now }
    ensures short { result < 2 ^ 16 }
{
    usize::from(u16_at(payload, 2))
}

/// Whether its length is possible.
fn has_length(whole: bool, payload: &[u8]) -> bool
    requires { 24 ≤ length payload.now }
    ensures { result ≡ has_length whole payload.now }
{
    let length = packet_length_of(payload);
    PACKET_HEADER <= length && (!whole || length <= payload.len())
}

/// The packet at the front of these bytes.
fn packet_in(payload: &[u8]) -> Packet<'_>
    requires long { 24 ≤ length payload.now }
    requires header { 24 ≤ packet_length_of payload.now }
    ensures packet { packet_text result ≡ packet_in payload.now }
    ensures long { 24 ≤ length result.bytes.now }
    ensures short { length result.bytes.now < 2 ^ 16 }
{
    let length = packet_length_of(payload);
    Packet {
        whole: length <= payload.len(),
        bytes: &payload[..length.min(payload.len())],
    }
}

/// The packet, unless its checksum is known to be wrong.
fn summed(packet: Packet<'_>) -> Result<Packet<'_>, FrameWarning>
    requires long { 24 ≤ length packet.bytes.now }
    requires short { length packet.bytes.now < 2 ^ 16 }
    ensures packet { MatchResult result
        (λ found. summed (packet_text packet.entry) ≡ Ok (packet_text found))
        (λ warning. summed (packet_text packet.entry) ≡ Err warning) }
    ensures long { IfOk result (λ found. 24 ≤ length found.bytes.now) }
{
    if packet.whole && !is_checksum_good(packet.bytes) {
        return Err(FrameWarning::BadChecksum);
    }
    Ok(packet)
}

/// The packet that is the payload of a datagram: all of it, or what is at hand.
pub(crate) fn ospf_of(whole: bool, payload: &[u8]) -> Result<Packet<'_>, FrameWarning>
    ensures packet { MatchResult result
        (λ packet. ospf_of whole payload.now ≡ Ok (packet_text packet))
        (λ warning. ospf_of whole payload.now ≡ Err warning) }
    ensures long { IfOk result (λ packet. 24 ≤ length packet.bytes.now) }
{
    if payload.len() < PACKET_HEADER {
        return Err(lack(whole));
    }
    if payload[0] != 2 {
        return Err(FrameWarning::OtherVersion);
    }
    if !has_length(whole, payload) {
        return Err(FrameWarning::BadLength);
    }
    summed(packet_in(payload))
}

//! What frames carry, by the type of their link.

ghost use Rattle.std.specs.Prelude.{◌≡◌, ◌+◌, ◌≤◌, length, true, Ok, Err, MatchResult};
ghost use Rattle.ospf_packets.specs.Links.{is_tag, is_encapsulating, untagged, after_type, after_header, after_protocol, is_framed, ppp_payload, is_internet, loopback_payload, link_payload};

use crate::field::{u16_at, u32_at};
use capture_files::LinkType;
use findings::FrameWarning;

/// The EtherType of IPv4.
const IPV4: u16 = 0x0800;

/// Whether this is the EtherType of a VLAN tag.
fn is_tag(kind: u16) -> bool
    ensures { result ≡ is_tag kind }
{
    kind == 0x8100 || kind == 0x88a8 || kind == 0x9100
}

/// Whether this is the EtherType of PPPoE sessions or of MPLS, which may carry IPv4 in their turn.
fn is_encapsulating(kind: u16) -> bool
    ensures { result ≡ is_encapsulating kind }
{
    kind == 0x8864 || kind == 0x8847 || kind == 0x8848
}

/// What follows an EtherType that is not one of a tag.
fn untagged(kind: u16, bytes: &[u8]) -> Result<&[u8], FrameWarning>
    ensures { MatchResult result
        (λ payload. untagged kind bytes.now ≡ Ok payload.now)
        (λ warning. untagged kind bytes.now ≡ Err warning) }
{
    if kind == IPV4 {
        Ok(bytes)
    } else if is_encapsulating(kind) {
        Err(FrameWarning::Encapsulated)
    } else {
        Err(FrameWarning::NotIpv4)
    }
}

/// What follows an EtherType and all tags.
#[tactic(auto, using(crate::proofs::Tags::tagged, crate::proofs::Tags::cut_tag, crate::proofs::Tags::no_tag))]
fn after_type(kind: u16, bytes: &[u8]) -> Result<&[u8], FrameWarning>
    ensures { MatchResult result
        (λ payload. after_type kind bytes.now ≡ Ok payload.now)
        (λ warning. after_type kind bytes.now ≡ Err warning) }
{
    let mut kind = kind;
    let mut rest = bytes;
    'tags: while is_tag(kind) {
        if rest.len() < 4 {
            return Err(FrameWarning::Truncated);
        }
        kind = u16_at(rest, 2);
        rest = &rest[4..];
    }
    untagged(kind, rest)
}

/// What follows a header of `size` bytes, which has the EtherType at an offset.
fn after_header(size: usize, offset: usize, frame: &[u8]) -> Result<&[u8], FrameWarning>
    requires { offset + 2 ≤ size }
    ensures { MatchResult result
        (λ payload. after_header size offset frame.now ≡ Ok payload.now)
        (λ warning. after_header size offset frame.now ≡ Err warning) }
{
    if frame.len() < size {
        return Err(FrameWarning::Truncated);
    }
    after_type(u16_at(frame, offset), &frame[size..])
}

/// What follows the protocol of PPP (RFC 1661, 2).
fn after_protocol(bytes: &[u8]) -> Result<&[u8], FrameWarning>
    ensures { MatchResult result
        (λ payload. after_protocol bytes.now ≡ Ok payload.now)
        (λ warning. after_protocol bytes.now ≡ Err warning) }
{
    if bytes.len() < 2 {
        return Err(FrameWarning::Truncated);
    }
    if u16_at(bytes, 0) == 0x0021 {
        Ok(&bytes[2..])
    } else {
        Err(FrameWarning::NotIpv4)
    }
}

/// Whether the framing of HDLC stands before the protocol (RFC 1662, 3.1).
fn is_framed(frame: &[u8]) -> bool
    ensures same { result ≡ is_framed frame.now }
    ensures long { result ≡ true → 2 ≤ length frame.now }
{
    2 <= frame.len() && u16_at(frame, 0) == 0xff03
}

/// What a frame of PPP carries, with the framing of HDLC or without.
fn ppp_payload(frame: &[u8]) -> Result<&[u8], FrameWarning>
    ensures { MatchResult result
        (λ payload. ppp_payload frame.now ≡ Ok payload.now)
        (λ warning. ppp_payload frame.now ≡ Err warning) }
{
    if is_framed(frame) {
        after_protocol(&frame[2..])
    } else {
        after_protocol(frame)
    }
}

/// Whether this is the address family of IPv4, in either byte order.
fn is_internet(family: u32) -> bool
    ensures { result ≡ is_internet family }
{
    family == 2 || family == 0x0200_0000
}

/// What a frame of a loopback interface carries, after its address family.
fn loopback_payload(frame: &[u8]) -> Result<&[u8], FrameWarning>
    ensures { MatchResult result
        (λ payload. loopback_payload frame.now ≡ Ok payload.now)
        (λ warning. loopback_payload frame.now ≡ Err warning) }
{
    if frame.len() < 4 {
        return Err(FrameWarning::Truncated);
    }
    if is_internet(u32_at(frame, 0)) {
        Ok(&frame[4..])
    } else {
        Err(FrameWarning::NotIpv4)
    }
}

/// The IPv4 datagram that a frame carries.
pub(crate) fn link_payload(link: LinkType, frame: &[u8]) -> Result<&[u8], FrameWarning>
    ensures { MatchResult result
        (λ payload. link_payload link frame.now ≡ Ok payload.now)
        (λ warning. link_payload link frame.now ≡ Err warning) }
{
    match link.0 {
        1 => after_header(14, 12, frame),
        113 => after_header(16, 14, frame),
        276 => after_header(20, 0, frame),
        104 => after_header(4, 2, frame),
        9 | 50 => ppp_payload(frame),
        0 | 108 => loopback_payload(frame),
        101 | 228 => Ok(frame),
        _ => Err(FrameWarning::OtherLink),
    }
}

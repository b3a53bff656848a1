//! Datagrams that are joined from their fragments (RFC 791, 3.2).

ghost use Rattle.std.specs.Prelude.{◌≡◌, map, option_map, Ok, Err, MatchResult, IfOk};
ghost use Rattle.capture_files.specs.CaptureTexts.{packet_of};
ghost use Rattle.ospf_packets.specs.Datagrams.{datagram_text};
ghost use Rattle.ospf_packets.specs.Fragments.{is_cut, datagram_of, is_same, goes_on, with_fragment, joined, leads_to, has_front, last_few, first_few};

use crate::datagram::{Datagram, ipv4_of};
use crate::link::link_payload;
use capture_files::Frame;
use findings::FrameWarning;
use std::alloc::{AllocError, Allocator};

/// The other fragments of a datagram are looked for within this number of frames.
const MOST_APART: usize = 256;

/// Whether the capture has fewer bytes of the frame than it had.
fn is_cut(frame: &Frame<'_>) -> bool
    ensures { result ≡ is_cut (packet_of frame.now) }
{
    frame.bytes.len() < frame.original as usize
}

/// The datagram, or the fragment of one, in a frame.
pub(crate) fn datagram_of<'a>(frame: &Frame<'a>) -> Result<Datagram<'a>, FrameWarning>
    ensures { MatchResult result
        (λ datagram. datagram_of (packet_of frame.now) ≡ Ok (datagram_text datagram))
        (λ warning. datagram_of (packet_of frame.now) ≡ Err warning) }
{
    let payload = link_payload(frame.link, frame.bytes)?;
    ipv4_of(is_cut(frame), payload)
}

/// Whether these are fragments of one datagram.
fn is_same(a: Datagram<'_>, b: Datagram<'_>) -> bool
    ensures { result ≡ is_same (datagram_text a.entry) (datagram_text b.entry) }
{
    a.source == b.source && a.destination == b.destination && a.identification == b.identification
}

/// Whether the fragment continues the datagram of `first`, of which `size` bytes of payload are
/// known.
fn goes_on(first: Datagram<'_>, size: usize, fragment: Datagram<'_>) -> bool
    ensures { result ≡ goes_on (datagram_text first.entry) size (datagram_text fragment.entry) }
{
    is_same(first, fragment) && fragment.before as usize == size && fragment.whole
}

/// Adds to the payload what a frame adds to it, and answers whether this is its end.
fn add_fragment<A: Allocator + Copy>(
    payload: &mut Vec<u8, A>,
    first: Datagram<'_>,
    frame: &Frame<'_>,
) -> Result<bool, AllocError>
    ensures { IfOk result (λ is_end. (payload.new.items, is_end)
        ≡ with_fragment (datagram_text first.entry) payload.old.items
        (datagram_of (packet_of frame.now))) }
{
    match datagram_of(frame) {
        Ok(fragment) => {
            if !goes_on(first, payload.len(), fragment) {
                return Ok(false);
            }
            payload.extend_from_slice(fragment.payload)?;
            Ok(!fragment.more)
        }
        Err(_) => Ok(false),
    }
}

/// The payload of the datagram that a fragment begins, where the others stand in these frames, in
/// order.
#[tactic(auto, using(crate::proofs::Joins::unended))]
pub(crate) fn joined<A: Allocator + Copy>(
    alloc: A,
    first: Datagram<'_>,
    frames: &[Frame<'_>],
) -> Result<Option<Vec<u8, A>>, AllocError>
    ensures { IfOk result (λ payload. option_map (λ v. v.items) payload
        ≡ joined (datagram_text first.entry) first.entry.payload.now (map packet_of frames.now)) }
{
    let mut payload = Vec::from_slice(alloc, first.payload)?;
    for frame in frames {
        if add_fragment(&mut payload, first, frame)? {
            return Ok(Some(payload));
        }
    }
    Ok(None)
}

/// Whether the fragment in a frame is the one just before this one.
fn leads_to(fragment: Datagram<'_>, frame: &Frame<'_>) -> bool
    ensures { result ≡ leads_to (datagram_text fragment.entry) (datagram_of (packet_of frame.now)) }
{
    match datagram_of(frame) {
        Ok(other) => {
            is_same(fragment, other)
                && other.more
                && other.before as usize + other.payload.len() == fragment.before as usize
        }
        Err(_) => false,
    }
}

/// Whether the fragment just before this one stands in one of these frames.
pub(crate) fn has_front(fragment: Datagram<'_>, frames: &[Frame<'_>]) -> bool
    ensures { result ≡ has_front (datagram_text fragment.entry) (map packet_of frames.now) }
{
    for frame in frames {
        if leads_to(fragment, frame) {
            return true;
        }
    }
    false
}

/// The last of the frames, those in which fragments are looked for.
pub(crate) fn last_few<'b, 'a>(frames: &'b [Frame<'a>]) -> &'b [Frame<'a>]
    ensures { map packet_of result.now ≡ last_few (map packet_of frames.now) }
{
    &frames[frames.len().saturating_sub(MOST_APART)..]
}

/// The first of the frames, those in which fragments are looked for.
pub(crate) fn first_few<'b, 'a>(frames: &'b [Frame<'a>]) -> &'b [Frame<'a>]
    ensures { map packet_of result.now ≡ first_few (map packet_of frames.now) }
{
    &frames[..MOST_APART.min(frames.len())]
}

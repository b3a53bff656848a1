//! Files of the pcap format (draft-ietf-opsawg-pcap).

ghost use Rattle.std.specs.Prelude.{◌≡◌, ◌≢◌, ◌≤◌, ◌<◌, ◌+◌, ◌*◌, length, map, drop, option_map, Ok, Err, Some, None, false, true, IfOk, IfErr, IfSome};
ghost use Rattle.capture_files.specs.CaptureTexts.{packet_of, capture_text};
ghost use Rattle.capture_files.specs.Pcap.{fraction_of, signature_in, signature_of, header, length_of_fraction, moment_of, is_malformed, record_of, end_at, AreRecords, IsMalformedAt, HasRecord, IsPcap, IsPcapFault};
ghost use Rattle.capture_files.specs.declared.fault.CaptureFault.TheVariants.{OutOfMemory};

use crate::fault::CaptureFault;
use crate::field::{u16_at, u32_at};
use crate::frame::{Capture, End, Frame, LinkType};
use crate::order::Order;
use std::alloc::Allocator;

/// How many bytes the header of a file has.
const FILE_HEADER: usize = 24;

/// How many bytes the header of a record has.
const RECORD_HEADER: usize = 16;

/// The most bytes of a frame that a capture has, as tcpdump and its kin write them.
const MOST_CAPTURED: u32 = 262_144;

/// The unit of the fractions of a second.
#[derive(Clone, Copy, Debug, PartialEq, Eq)]
pub(crate) enum Fraction {
    /// Microseconds.
    Micro,
    /// Nanoseconds.
    Nano,
}

/// What the header of a file says of its records.
#[derive(Clone, Copy, Debug)]
pub(crate) struct Form {
    order: Order,
    fraction: Fraction,
    link: LinkType,
}

/// The unit that a magic number stands for.
fn fraction_of(magic: u32) -> Option<Fraction>
    ensures { result ≡ fraction_of magic }
{
    match magic {
        0xa1b2_c3d4 => Some(Fraction::Micro),
        0xa1b2_3c4d => Some(Fraction::Nano),
        _ => None,
    }
}

/// The unit that the magic number stands for in a byte order, if it is known there.
fn signature_in(order: Order, file: &[u8]) -> Option<(Order, Fraction)>
    requires { 4 ≤ length file.now }
    ensures { result ≡ signature_in order file.now }
{
    match fraction_of(u32_at(order, file, 0)) {
        Some(fraction) => Some((order, fraction)),
        None => None,
    }
}

/// The byte order and the unit that the magic number stands for.
fn signature_of(file: &[u8]) -> Option<(Order, Fraction)>
    requires { 4 ≤ length file.now }
    ensures { result ≡ signature_of file.now }
{
    match signature_in(Order::Big, file) {
        Some(signature) => Some(signature),
        None => signature_in(Order::Little, file),
    }
}

/// The header of the file.
#[tactic(auto, unfolding(crate::specs::Pcap::header))]
fn header(file: &[u8]) -> Result<Form, CaptureFault>
    ensures header { result ≡ header file.now }
    ensures long { IfOk result (λ form. 24 ≤ length file.now) }
    ensures fault { IfErr result (λ fault. IsPcapFault file.now fault) }
    ensures memory { IfErr result (λ fault. fault ≢ OutOfMemory) }
{
    if file.len() < 4 {
        return Err(CaptureFault::NotACapture);
    }
    let Some((order, fraction)) = signature_of(file) else {
        return Err(CaptureFault::NotACapture);
    };
    if file.len() < FILE_HEADER {
        return Err(CaptureFault::ShortHeader);
    }
    if u16_at(order, file, 4) != 2 {
        return Err(CaptureFault::Version);
    }
    let link = LinkType((u32_at(order, file, 20) % 65_536) as u16);
    Ok(Form {
        order,
        fraction,
        link,
    })
}

/// A fraction of a second, in nanoseconds.
fn length_of_fraction(fraction: Fraction) -> u64
    ensures length { result ≡ length_of_fraction fraction }
    ensures short { result ≤ 1000 }
{
    match fraction {
        Fraction::Micro => 1000,
        Fraction::Nano => 1,
    }
}

/// The time stamp of the record at the front of the bytes, in nanoseconds since 1970.
fn moment_of(form: Form, bytes: &[u8]) -> u64
    requires { 8 ≤ length bytes.now }
    ensures { result ≡ moment_of form bytes.now }
{
    let seconds = u64::from(u32_at(form.order, bytes, 0));
    let fractions = u64::from(u32_at(form.order, bytes, 4));
    seconds * 1_000_000_000 + fractions * length_of_fraction(form.fraction)
}

/// Whether the record at the front of the bytes has a malformed captured length.
fn is_malformed(form: Form, bytes: &[u8]) -> bool
    ensures { result ≡ is_malformed form bytes.now }
{
    if bytes.len() < RECORD_HEADER {
        return false;
    }
    let captured = u32_at(form.order, bytes, 8);
    u32_at(form.order, bytes, 12) < captured || MOST_CAPTURED < captured
}

/// The frame of the record at the front of the bytes, where a whole record stands there.
fn record_of(form: Form, bytes: &[u8]) -> Option<Frame<'_>>
    ensures packet { option_map packet_of result ≡ record_of form bytes.now }
    ensures within { IfSome result (λ frame. 16 + length frame.bytes.now ≤ length bytes.now) }
{
    if bytes.len() < RECORD_HEADER {
        return None;
    }
    let captured = u32_at(form.order, bytes, 8) as usize;
    if bytes.len() < RECORD_HEADER + captured {
        return None;
    }
    Some(Frame {
        link: form.link,
        seen: Some(moment_of(form, bytes)),
        bytes: &bytes[RECORD_HEADER..RECORD_HEADER + captured],
        original: u32_at(form.order, bytes, 12),
    })
}

/// The frame of the record at an offset, where a whole well-formed record stands there.
fn next_frame(form: Form, file: &[u8], offset: usize) -> Result<Option<Frame<'_>>, CaptureFault>
    requires { offset ≤ length file.now }
    ensures packet { IfOk result
        (λ frame. option_map packet_of frame ≡ record_of form (drop offset file.now)) }
    ensures well_formed { IfOk result (λ frame. is_malformed form (drop offset file.now) ≡ false) }
    ensures within { IfOk result (λ frame. IfSome frame
        (λ frame. offset + (16 + length frame.bytes.now) ≤ length file.now)) }
    ensures fault { IfErr result (λ fault. (fault ≡ CaptureFault.CapturedLength offset)
        × (is_malformed form (drop offset file.now) ≡ true)) }
{
    let bytes = &file[offset..];
    if is_malformed(form, bytes) {
        return Err(CaptureFault::CapturedLength(offset));
    }
    Ok(record_of(form, bytes))
}

/// The frames of the records, and the offset at which the last whole record ends.
fn read_records<A: Allocator + Copy>(
    alloc: A,
    form: Form,
    file: &[u8],
) -> Result<(Vec<Frame<'_>, A>, usize), CaptureFault>
    requires headed { header file.now ≡ Ok form }
    requires long { 24 ≤ length file.now }
    ensures records { IfOk result (λ found. AreRecords form (drop 24 file.now)
        (map packet_of found.0.items) (drop found.1 file.now)) }
    ensures within { IfOk result (λ found. found.1 ≤ length file.now) }
    ensures well_formed { IfOk result (λ found. is_malformed form (drop found.1 file.now) ≡ false) }
    ensures last { IfOk result (λ found. record_of form (drop found.1 file.now) ≡ None) }
    ensures fault { IfErr result (λ fault. IsPcapFault file.now fault) }
    ensures memory { IfErr result (λ fault. fault ≡ OutOfMemory → HasRecord file.now) }
{
    let mut frames = Vec::new(alloc);
    let mut offset = FILE_HEADER;
    'records: while let Some(frame) = next_frame(form, file, offset)? {
        offset += RECORD_HEADER + frame.bytes.len();
        frames.push(frame)?;
    }
    Ok((frames, offset))
}

/// How the file ends, if its last whole record ends at this offset.
pub(crate) fn end_at(file: &[u8], offset: usize) -> End
    ensures { result ≡ end_at file.now offset }
{
    if offset == file.len() {
        End::Whole
    } else {
        End::Cut(offset)
    }
}

/// Reads a file of the pcap format. Its frames are parts of the file.
///
/// # Errors
///
/// `NotACapture` where no magic number of the format stands at the front, `ShortHeader` where the
/// file ends within its header, `Version` for another major version than 2, `CapturedLength` with
/// the offset of the first record that says that more bytes were captured than there were or than
/// a capture has, and `OutOfMemory`, which comes only where a whole record follows the header and
/// is well-formed.
pub fn read_pcap<A: Allocator + Copy>(alloc: A, file: &[u8]) -> Result<Capture<'_, A>, CaptureFault>
    ensures parsed { IfOk result (λ capture. IsPcap file.now (capture_text capture)) }
    ensures fault { IfErr result (λ fault. IsPcapFault file.now fault) }

    // Memory runs out only where the file has a record.
    ensures memory { IfErr result (λ fault. fault ≡ OutOfMemory → HasRecord file.now) }
{
    let form = header(file)?;
    let (frames, offset) = read_records(alloc, form, file)?;
    let end = end_at(file, offset);
    Ok(Capture { frames, end })
}

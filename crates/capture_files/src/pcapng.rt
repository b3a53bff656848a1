//! Files of the pcapng format (draft-ietf-opsawg-pcapng).

ghost use Rattle.std.specs.Prelude.{◌≡◌, ◌≤◌, ◌<◌, ◌+◌, length, drop, Ok, Err, Some, None, true, IfOk, IfErr, OnOk, MatchOption};
ghost use Rattle.capture_files.specs.declared.fault.CaptureFault.TheVariants as faults;
ghost use Rattle.capture_files.specs.CaptureTexts.{capture_text};
ghost use Rattle.capture_files.specs.Pcapng.{state_of, after, next, has_section, fault_at, Reaches, HasKept, HasContent, IsPcapng, IsPcapngFault};
ghost use Rattle.capture_files.specs.steps.BlockContents.{content_of, IsStop, IsBlockKept};

use crate::block::{Flaw, SECTION_HEADER, first_block};
use crate::fault::CaptureFault;
use crate::field::u32_at;
use crate::frame::Capture;
use crate::order::Order;
use crate::part::{Part, parsed_by};
use crate::pcap::end_at;
use crate::reading::Reading;
use std::alloc::Allocator;

/// Whether the file begins with a Section Header Block.
pub(crate) fn has_section(file: &[u8]) -> bool
    ensures { result ≡ has_section file.now }
{
    if file.len() < 4 {
        return false;
    }
    u32_at(Order::Big, file, 0) == SECTION_HEADER
}

/// The fault of a malformed block at an offset.
fn fault_at(flaw: Flaw, offset: usize) -> CaptureFault
    ensures { result ≡ fault_at flaw offset }
{
    match flaw {
        Flaw::ByteOrder => CaptureFault::ByteOrder(offset),
        Flaw::BlockLength => CaptureFault::BlockLength(offset),
        Flaw::SectionVersion => CaptureFault::SectionVersion(offset),
        Flaw::BlockCaptured => CaptureFault::CapturedLength(offset),
        Flaw::NoInterface => CaptureFault::NoInterface(offset),
    }
}

/// Adds what a block in this byte order contains.
#[tactic(auto, using(crate::proofs::BlockWalk::one_more_kept))]
fn add<'a, A: Allocator + Copy>(
    reading: &mut Reading<'a, A>,
    order: Order,
    part: Part<'a>,
) -> Result<(), CaptureFault>
    ensures added { OnOk result
        (state_of reading.new ≡ after (state_of reading.old) order (content_of part.entry)) }
    ensures memory { IfErr result (λ fault. fault ≡ faults.OutOfMemory) }
    ensures kept { IfErr result
        (λ fault. HasKept (after (state_of reading.old) order (content_of part.entry))) }
{
    reading.order = order;
    match part {
        Part::Section => reading.interfaces.clear(),
        Part::Described(interface) => reading.interfaces.push(interface)?,
        Part::Captured(frame) => reading.frames.push(frame)?,
        Part::Other => {}
    }
    Ok(())
}

/// Reads the block at an offset, and answers how many bytes it has; `None` where no whole block
/// stands there.
#[tactic(auto, unfolding(crate::specs::Pcapng::next))]
fn read_block<'a, A: Allocator + Copy>(
    reading: &mut Reading<'a, A>,
    file: &'a [u8],
    offset: usize,
) -> Result<Option<usize>, CaptureFault>
    requires { offset ≤ length file.now }
    ensures block { IfOk result (λ found. MatchOption found
        ((state_of reading.new ≡ state_of reading.old)
        × (next (state_of reading.old) (drop offset file.now) ≡ Ok None))
        (λ size. next (state_of reading.old) (drop offset file.now)
        ≡ Ok (Some (state_of reading.new, size)))) }
    ensures within { IfOk result (λ found. MatchOption found (offset ≤ length file.now)
        (λ size. (0 < size) × (offset + size ≤ length file.now))) }
    ensures fault { IfErr result
        (λ fault. IsStop offset (next (state_of reading.old) (drop offset file.now)) fault) }
    ensures memory { IfErr result (λ fault. fault ≡ faults.OutOfMemory
        → IsBlockKept offset file.now (next (state_of reading.old) (drop offset file.now))) }
{
    let block = match first_block(reading.order, &file[offset..]) {
        Err(flaw) => return Err(fault_at(flaw, offset)),
        Ok(None) => return Ok(None),
        Ok(Some(block)) => block,
    };
    let part = match parsed_by(&reading.interfaces, block) {
        Err(flaw) => return Err(fault_at(flaw, offset)),
        Ok(part) => part,
    };
    add(reading, block.order, part)?;
    Ok(Some(block.bytes.len()))
}

/// What the whole blocks of the file contain, and the offset at which the last of them ends.
fn read_blocks<A: Allocator + Copy>(
    alloc: A,
    file: &[u8],
) -> Result<(Reading<'_, A>, usize), CaptureFault>
    requires { has_section file.now ≡ true }
    ensures reached { IfOk result (λ found. Reaches file.now (state_of found.0) found.1) }
    ensures stopped { IfOk result
        (λ found. next (state_of found.0) (drop found.1 file.now) ≡ Ok None) }
    ensures fault { IfErr result (λ fault. IsPcapngFault file.now fault) }
    ensures memory { IfErr result (λ fault. fault ≡ faults.OutOfMemory → HasContent file.now) }
{
    let mut reading = Reading {
        order: Order::Big,
        interfaces: Vec::new(alloc),
        frames: Vec::new(alloc),
    };
    let mut offset = 0;
    'walk: while let Some(size) = read_block(&mut reading, file, offset)? {
        offset += size;
    }
    Ok((reading, offset))
}

/// Reads a file of the pcapng format. Its frames are parts of the file.
///
/// # Errors
///
/// `NotACapture` where the file does not begin with a Section Header Block, `ByteOrder`,
/// `BlockLength`, `SectionVersion`, `CapturedLength` and `NoInterface` with the offset of the first
/// malformed block, and `OutOfMemory`, which comes only after a block that describes an interface
/// or has a packet.
pub fn read_pcapng<A: Allocator + Copy>(
    alloc: A,
    file: &[u8],
) -> Result<Capture<'_, A>, CaptureFault>
    ensures parsed { IfOk result (λ capture. IsPcapng file.now (capture_text capture)) }
    ensures fault { IfErr result (λ fault. IsPcapngFault file.now fault) }

    // Memory runs out only where blocks describe an interface or have a packet.
    ensures memory { IfErr result (λ fault. fault ≡ faults.OutOfMemory → HasContent file.now) }
{
    if !has_section(file) {
        return Err(CaptureFault::NotACapture);
    }
    let (reading, offset) = read_blocks(alloc, file)?;
    let end = end_at(file, offset);
    let frames = reading.frames;
    Ok(Capture { frames, end })
}

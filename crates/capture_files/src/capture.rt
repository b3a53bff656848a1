//! Files of either format.

ghost use Rattle.std.specs.Prelude.{◌≡◌, IfOk, IfErr};
ghost use Rattle.capture_files.specs.CaptureTexts.{capture_text};
ghost use Rattle.capture_files.specs.Captures.{IsCapture, IsCaptureFault, NeedsMemory};
ghost use Rattle.capture_files.specs.declared.fault.CaptureFault.TheVariants.{OutOfMemory};

use crate::fault::CaptureFault;
use crate::frame::Capture;
use crate::pcap::read_pcap;
use crate::pcapng::{has_section, read_pcapng};
use std::alloc::Allocator;

/// Reads a capture file: of the pcapng format where it begins with a Section Header Block, else of
/// the pcap format. Its frames are parts of the file.
///
/// # Errors
///
/// Those of [`read_pcapng`] and of [`read_pcap`]; `NotACapture` where the file begins as neither
/// format does.
pub fn read_capture<A: Allocator + Copy>(
    alloc: A,
    file: &[u8],
) -> Result<Capture<'_, A>, CaptureFault>
    ensures parsed { IfOk result (λ capture. IsCapture file.now (capture_text capture)) }
    ensures fault { IfErr result (λ fault. IsCaptureFault file.now fault) }

    // Memory runs out only where the file has what memory is asked for.
    ensures memory { IfErr result (λ fault. fault ≡ OutOfMemory → NeedsMemory file.now) }
{
    if has_section(file) {
        read_pcapng(alloc, file)
    } else {
        read_pcap(alloc, file)
    }
}

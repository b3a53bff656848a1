//! The line of a run that ended early.

ghost use Rattle.std.specs.Prelude.{◌≡◌, IfOk, string_bytes};
ghost use Rattle.plan_slices.specs.Texts.{end_text};

use std::alloc::{AllocError, Allocator};
use whole_run::RunFault;

/// The line for a run that ended early, its line feed included, as `ospf-plan` writes it to
/// standard error: `dump: L4 TrailingBytes at 99`, `file: TooLarge` or `memory: OutOfMemory`.
///
/// # Errors
///
/// Memory ran out.
pub fn fault_text<A: Allocator + Copy>(alloc: A, fault: RunFault) -> Result<String<A>, AllocError>
    ensures { IfOk result (λ line. string_bytes line ≡ end_text fault) }
{
    match fault {
        RunFault::Dump(fault) => format!(in alloc; "dump: {fault}\n"),
        RunFault::Read => String::from_str(alloc, "file: Read\n"),
        RunFault::TooLarge => String::from_str(alloc, "file: TooLarge\n"),
        RunFault::Write | RunFault::OutOfMemory => String::from_str(alloc, "memory: OutOfMemory\n"),
    }
}

//! The line of a run that ended early.

ghost use Rattle.std.specs.Prelude.{◌≡◌, IfOk};
ghost use Rattle.study_slices.specs.Ends.{dump_line, end_text};

use lsdb::DumpFault;
use std::alloc::{AllocError, Allocator};
use whole_study::{RunFault, names_line};

/// The line for a run that ended early, its line feed included, as `ospf-study` writes it to
/// standard error, for a names file named `names`: `baseline: L4 TrailingBytes at 99`,
/// `names:7: H3 BadName r!`, `file: TooLarge` or `memory: OutOfMemory`.
///
/// # Errors
///
/// Memory ran out.
pub fn fault_text<A: Allocator + Copy>(
    alloc: A,
    fault: &RunFault<A>,
) -> Result<Vec<u8, A>, AllocError>
    ensures { IfOk result (λ line. line.items ≡ end_text fault.now) }
{
    match fault {
        RunFault::Dump(fault) => dump_line(alloc, "dump", *fault),
        RunFault::Baseline(fault) => dump_line(alloc, "baseline", *fault),
        RunFault::Names(refusal) => names_line(alloc, "names", refusal),
        RunFault::Read => Vec::from_slice(alloc, b"file: Read\n"),
        RunFault::TooLarge => Vec::from_slice(alloc, b"file: TooLarge\n"),
        RunFault::Write | RunFault::OutOfMemory => Vec::from_slice(alloc, b"memory: OutOfMemory\n"),
    }
}

/// The line of a refused dump or baseline.
fn dump_line<A: Allocator + Copy>(
    alloc: A,
    what: &str,
    fault: DumpFault,
) -> Result<Vec<u8, A>, AllocError>
    ensures { IfOk result (λ line. line.items ≡ dump_line what.now fault) }
{
    let line = format!(in alloc; "{what}: {fault}\n")?;
    Vec::from_slice(alloc, line.as_bytes())
}

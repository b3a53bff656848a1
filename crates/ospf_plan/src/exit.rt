//! How the program ends after a fault: its status, and the line on standard error.

ghost use Rattle.std.specs.Prelude.{◌≡◌, IfOk, string_bytes};
ghost use Rattle.ospf_plan.specs.Exit.{exit_status, exit_text};

use crate::fault::{ExitFault, FileArg};
use lsdb::{DumpFault, DumpFaultKind};
use std::alloc::{AllocError, Allocator};
use whole_run::RunFault;

/// The status of a refused dump.
fn dump_status(fault: DumpFault) -> u8
    ensures { result ≡ exit_status (ExitFault.Run (RunFault.Dump fault)) }
{
    match fault.kind {
        DumpFaultKind::OutOfMemory => 5,
        _ => 3,
    }
}

fn status_of(fault: &ExitFault) -> u8
    ensures { result ≡ exit_status fault.now }
{
    match *fault {
        ExitFault::Run(RunFault::Dump(fault)) => dump_status(fault),
        ExitFault::Run(RunFault::OutOfMemory) => 5,
        ExitFault::Run(RunFault::Read | RunFault::Write | RunFault::TooLarge)
        | ExitFault::Open(_) => 4,
    }
}

/// The line of a refused dump.
fn dump_line<A: Allocator + Copy>(alloc: A, fault: DumpFault) -> Result<String<A>, AllocError>
    ensures { IfOk result (λ line.
        string_bytes line ≡ exit_text (ExitFault.Run (RunFault.Dump fault))) }
{
    match fault.kind {
        DumpFaultKind::OutOfMemory => String::from_str(alloc, "memory: OutOfMemory\n"),
        _ => format!(in alloc; "dump: {fault}\n"),
    }
}

fn line_of<A: Allocator + Copy>(alloc: A, fault: &ExitFault) -> Result<String<A>, AllocError>
    ensures { IfOk result (λ line. string_bytes line ≡ exit_text fault.now) }
{
    let line = match *fault {
        ExitFault::Run(RunFault::Dump(fault)) => return dump_line(alloc, fault),
        ExitFault::Run(RunFault::Read) => "file: Read\n",
        ExitFault::Run(RunFault::Write) => "file: Write\n",
        ExitFault::Run(RunFault::TooLarge) => "file: TooLarge\n",
        ExitFault::Run(RunFault::OutOfMemory) => "memory: OutOfMemory\n",
        ExitFault::Open(FileArg::Dump) => "file: Open dump\n",
        ExitFault::Open(FileArg::Script) => "file: Open script\n",
        ExitFault::Open(FileArg::Out) => "file: Open out\n",
        ExitFault::Open(FileArg::Save) => "file: Open save\n",
    };
    String::from_str(alloc, line)
}

/// The exit status and the line for standard error, its line feed included: 3 where the dump is
/// refused, 4 where a file cannot be opened, read or written or the script is too long, 5 for want
/// of memory.
///
/// An error is want of memory for the line; the status stands all the same.
pub(crate) fn exit_line<A: Allocator + Copy>(
    alloc: A,
    fault: &ExitFault,
) -> (u8, Result<String<A>, AllocError>)
    ensures status { result.0 ≡ exit_status fault.now }
    ensures line { IfOk result.1 (λ line. string_bytes line ≡ exit_text fault.now) }
{
    (status_of(fault), line_of(alloc, fault))
}

//! How the program ends after a fault: its status, and the line on standard error.

ghost use Rattle.std.specs.Prelude.{◌≡◌, IfOk, string_bytes};
ghost use Rattle.ospf_study.specs.Exit.{dump_status, dump_text, exit_status, exit_text, open_study_text, open_text, run_status, run_text};

use crate::fault::{ExitFault, FileArg};
use lsdb::{DumpFault, DumpFaultKind};
use std::alloc::{AllocError, Global};
use whole_study::{RunFault, names_line};

/// The status of a refused dump or baseline.
fn dump_status(fault: DumpFault) -> u8
    ensures { result ≡ dump_status fault.kind }
{
    match fault.kind {
        DumpFaultKind::OutOfMemory => 5,
        _ => 3,
    }
}

fn run_status(fault: &RunFault) -> u8
    ensures { result ≡ run_status fault.now }
{
    match fault {
        RunFault::Dump(fault) | RunFault::Baseline(fault) => dump_status(*fault),
        RunFault::Names(_) => 3,
        RunFault::Read | RunFault::Write | RunFault::TooLarge => 4,
        RunFault::OutOfMemory => 5,
    }
}

fn status_of(fault: &ExitFault<'_>) -> u8
    ensures { result ≡ exit_status fault.now }
{
    match fault {
        ExitFault::Run(_, fault) => run_status(fault),
        ExitFault::Open(_) | ExitFault::OpenStudy(_) => 4,
    }
}

/// The text of the line of a refused dump or baseline.
fn dump_text(alloc: Global, what: &str, fault: DumpFault) -> Result<String, AllocError>
    ensures { IfOk result (λ line. string_bytes line ≡ dump_text what.now fault) }
{
    match fault.kind {
        DumpFaultKind::OutOfMemory => String::from_str(alloc, "memory: OutOfMemory\n"),
        _ => format!(in alloc; "{what}: {fault}\n"),
    }
}

fn dump_line(alloc: Global, what: &str, fault: DumpFault) -> Result<Vec<u8>, AllocError>
    ensures { IfOk result (λ line. line.items ≡ dump_text what.now fault) }
{
    let line = dump_text(alloc, what, fault)?;
    Vec::from_slice(alloc, line.as_bytes())
}

fn run_line(alloc: Global, names: &str, fault: &RunFault) -> Result<Vec<u8>, AllocError>
    ensures { IfOk result (λ line. line.items ≡ run_text names.now fault.now) }
{
    let line = match fault {
        RunFault::Dump(fault) => return dump_line(alloc, "dump", *fault),
        RunFault::Baseline(fault) => return dump_line(alloc, "baseline", *fault),
        RunFault::Names(refusal) => return names_line(alloc, names, refusal),
        RunFault::Read => "file: Read\n",
        RunFault::Write => "file: Write\n",
        RunFault::TooLarge => "file: TooLarge\n",
        RunFault::OutOfMemory => "memory: OutOfMemory\n",
    };
    Vec::from_slice(alloc, line.as_bytes())
}

/// The line of a file that cannot be opened.
fn open_line(file: FileArg) -> &'static str
    ensures { result.now ≡ open_text file }
{
    match file {
        FileArg::Dump => "file: Open dump\n",
        FileArg::Baseline => "file: Open baseline\n",
        FileArg::Names => "file: Open names\n",
        FileArg::Out => "file: Open out\n",
    }
}

/// The line of a study that cannot be opened.
fn open_study_line(alloc: Global, name: &str) -> Result<Vec<u8>, AllocError>
    ensures { IfOk result (λ line. line.items ≡ open_study_text name.now) }
{
    let mut line = Vec::from_slice(alloc, b"file: Open study ")?;
    line.extend_from_slice(name.as_bytes())?;
    line.push(b'\n')?;
    Ok(line)
}

fn line_of(alloc: Global, fault: &ExitFault<'_>) -> Result<Vec<u8>, AllocError>
    ensures { IfOk result (λ line. line.items ≡ exit_text fault.now) }
{
    match fault {
        ExitFault::Run(names, fault) => run_line(alloc, names, fault),
        ExitFault::Open(file) => Vec::from_slice(alloc, open_line(*file).as_bytes()),
        ExitFault::OpenStudy(name) => open_study_line(alloc, name),
    }
}

/// The exit status and the line for standard error, its line feed included: 3 where the dump, the
/// baseline or the names file is refused, 4 where a file cannot be opened, read or written or is
/// too long, 5 for want of memory.
///
/// An error is want of memory for the line; the status stands all the same.
pub(crate) fn exit_line(alloc: Global, fault: &ExitFault<'_>) -> (u8, Result<Vec<u8>, AllocError>)
    ensures status { result.0 ≡ exit_status fault.now }
    ensures line { IfOk result.1 (λ line. line.items ≡ exit_text fault.now) }
{
    (status_of(fault), line_of(alloc, fault))
}

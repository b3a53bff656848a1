//! How a program ends early: a line on standard error, and a status.

ghost use Rattle.std.specs.Prelude.{◌≡◌};
ghost use Rattle.std.specs.Process.{exit_status};

use std::alloc::AllocError;
use std::io::Write;
use std::process::ExitCode;

/// Writes a line to standard error, its line feed included, and answers the exit status.
///
/// Without memory for the line, or where standard error accepts none, the status alone reports what
/// happened.
pub fn end_with(rt: &HostRuntime, status: u8, line: Result<String, AllocError>) -> ExitCode
    ensures { exit_status result ≡ status }
{
    if let Ok(line) = line {
        // Where standard error accepts no line, the status alone reports it.
        let _ = rt.stderr().write_all(line.as_bytes());
    }
    ExitCode::from(status)
}

/// Ends where memory ran out: with the line `memory: OutOfMemory` and status 5.
pub fn end_without_memory(rt: &HostRuntime) -> ExitCode
    ensures { exit_status result ≡ 5 }
{
    // Where standard error accepts no line, the status alone reports it.
    let _ = rt.stderr().write_all(b"memory: OutOfMemory\n");
    ExitCode::from(5)
}

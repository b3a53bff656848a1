//! How a program ends where its command line gives no options.

ghost use Rattle.std.specs.Prelude.{◌≡◌, IfErr, IfOk, if◌then◌else◌};
ghost use Rattle.std.specs.Process.{exit_status};
ghost use Rattle.clap.specs.Words.{kind_of};
ghost use Rattle.host_arguments.specs.OptionsFaults.{options_status, shown_status};

use crate::fault::OptionsFault;
use clap::Error;
use clap::error::ErrorKind;
use host_io::end_without_memory;
use std::io::Write;
use std::process::ExitCode;

/// The line where an argument is not UTF-8 text.
const BAD_ARGUMENT: &[u8] = b"error: an argument is not UTF-8 text\n";

/// Shows the text of clap: status 0 for help and the version, which go to standard output, and 2
/// for words that are refused, on standard error.
fn show(rt: &HostRuntime, error: &Error) -> ExitCode
    ensures { exit_status result ≡ shown_status (kind_of error.now) }
{
    // Where the text cannot be shown, the status alone reports it.
    let _ = error.print(rt);
    match error.kind() {
        ErrorKind::DisplayHelp | ErrorKind::DisplayVersion => ExitCode::from(0),
        _ => ExitCode::from(2),
    }
}

/// Ends where a word is no text.
fn end_without_text(rt: &HostRuntime) -> ExitCode
    ensures { exit_status result ≡ 2 }
{
    // Where standard error accepts no line, the status alone reports it.
    let _ = rt.stderr().write_all(BAD_ARGUMENT);
    ExitCode::from(2)
}

/// Ends where the words give no options: shows the text of clap, and ends with its status, or as a
/// word is no text, or as memory ran out.
fn end_without_options(rt: &HostRuntime, fault: &OptionsFault) -> ExitCode
    ensures { exit_status result ≡ options_status fault.now }
{
    match fault {
        OptionsFault::Refused(error) => show(rt, error),
        OptionsFault::NotText => end_without_text(rt),
        OptionsFault::OutOfMemory => end_without_memory(rt),
    }
}

/// Ends with the status of a run; where there was none, for want of options, it says why, and ends
/// with the status of that.
pub fn ended(rt: &HostRuntime, run: Result<ExitCode, OptionsFault>) -> ExitCode
    ensures run { IfOk run (λ status. result ≡ status) }
    ensures fault { IfErr run (λ fault. exit_status result ≡ options_status fault) }
{
    match run {
        Ok(status) => status,
        Err(fault) => end_without_options(rt, &fault),
    }
}

/// Status 0 where this holds, else 1.
pub fn success_if(holds: bool) -> ExitCode
    ensures { exit_status result ≡ (if holds then 0 else 1) }
{
    if holds {
        ExitCode::SUCCESS
    } else {
        ExitCode::from(1)
    }
}

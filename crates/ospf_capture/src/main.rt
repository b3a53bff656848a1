//! `ospf-capture`: a dump of a network's link state databases (RFC 2328), made from files that a
//! network provides: packet captures, SNMP walks, and what its routers print.
//!
//! `run` of the crate `capture_report` is the whole run, over readers and a writer; `main` hands it
//! the files that the command line names, reports what each contains, and writes the dump.
#![tactic(auto)]

ghost use Rattle.std.specs.Prelude.{◌≡◌};
ghost use Rattle.std.specs.Process.{exit_status as process_status};
ghost use Rattle.capture_lines.specs.Endings.{exit_status};

mod against;
mod arguments;
mod command_line;
mod fault;
mod files;
mod help;

use capture_lines::{ExitFault, exit_line};
use command_line::options;
use host_arguments::{OptionsFault, ended, success_if, words};
use host_io::end_with;
use std::process::ExitCode;

fn main(rt: HostRuntime) -> ExitCode {
    ended(&rt, capture(&rt))
}

/// Makes the dump: status 0 where nothing is missing that the planner needs, else 1.
fn capture(rt: &HostRuntime) -> Result<ExitCode, OptionsFault> {
    let words = words(rt)?;
    let given = options(rt.alloc(), words.as_slice())?;
    Ok(match files::make_dump(rt, &given) {
        Ok(complete) => success_if(complete),
        Err(fault) => end(rt, fault),
    })
}

/// Writes the line of a fault, and ends with its status.
fn end(rt: &HostRuntime, fault: ExitFault<'_>) -> ExitCode
    ensures { process_status result ≡ exit_status fault.entry }
{
    let (status, line) = exit_line(rt.alloc(), fault);
    end_with(rt, status, line)
}

//! `ospf-study`: studies of what happens in a network of OSPF Version 2 (RFC 2328).
//!
//! It opens a dump of link state databases or a saved session, carries out the lines of studies,
//! edits, questions and expectations, and writes what each is answered. `run` of the crate
//! `whole_study` is the whole run, over readers and writers; `main` hands it the files that the
//! command line names.
#![tactic(auto)]

ghost use Rattle.std.specs.Prelude.{◌≡◌};
ghost use Rattle.std.specs.Process.{exit_status as process_status};
ghost use Rattle.ospf_study.specs.Exit.{exit_status};

mod arguments;
mod command_line;
mod exit;
mod fault;
mod files;
mod help;

use command_line::options;
use exit::exit_line;
use fault::ExitFault;
use host_arguments::{OptionsFault, ended, success_if, words};
use std::alloc::Global;
use std::io::Write;
use std::process::ExitCode;

fn main(rt: HostRuntime) -> ExitCode {
    ended(&rt, study(&rt))
}

/// Carries out the studies: status 0 where each line is accepted, else 1.
fn study(rt: &HostRuntime) -> Result<ExitCode, OptionsFault> {
    let words = words(rt)?;
    let given = options(rt.alloc(), words.as_slice())?;
    Ok(match files::run_files(rt, &given) {
        Ok(accepted) => success_if(accepted),
        Err(fault) => end(rt, &fault),
    })
}

/// Writes the line of a fault, and ends with its status.
fn end(rt: &HostRuntime, fault: &ExitFault<'_>) -> ExitCode
    ensures { process_status result ≡ exit_status fault.now }
{
    let (status, line) = exit_line(rt.alloc(), fault);
    if let Ok(line) = line {
        // Where standard error accepts no line, the status alone reports it.
        let _ = rt.stderr().write_all(&line);
    }
    ExitCode::from(status)
}

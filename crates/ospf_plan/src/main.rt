//! `ospf-plan`: a what-if planner for OSPF Version 2 (RFC 2328).
//!
//! It opens a dump of link state databases or a saved session, carries out the commands of a
//! script, and writes their replies, and the dump and the session that they leave. `run` of the
//! crate `whole_run` is the whole run, over readers and writers; `main` hands it the files that the
//! command line names.
#![tactic(auto)]

ghost use Rattle.std.specs.Prelude.{◌≡◌};
ghost use Rattle.std.specs.Process.{exit_status as process_status};
ghost use Rattle.ospf_plan.specs.Exit.{exit_status};

mod arguments;
mod command_line;
mod exit;
mod fault;
mod files;
mod help;

use command_line::options;
use exit::exit_line;
use fault::ExitFault;
use host_arguments::{OptionsFault, ended, words};
use host_io::end_with;
use std::alloc::Global;
use std::process::ExitCode;

fn main(rt: HostRuntime) -> ExitCode {
    ended(&rt, plan(&rt))
}

/// A block that is taken and given back, in bytes: the C library goes by the size of one of up to
/// 32 MiB.
const BLOCK: usize = 31 << 20;

/// Takes a block of memory and gives it back. By its size the C library's allocator then goes: it
/// gives less memory than twice as much back to the kernel, which would clear it again for the
/// lists of each table.
fn keep_heap(alloc: Global) {
    // Where there is no block, the program is slower and does the same.
    let mut block: Vec<u8> = Vec::new(alloc);
    let _ = block.reserve(BLOCK);
}

/// Runs the script on the dump.
fn plan(rt: &HostRuntime) -> Result<ExitCode, OptionsFault> {
    let words = words(rt)?;
    let given = options(rt.alloc(), words.as_slice())?;
    keep_heap(rt.alloc());
    Ok(match files::run_files(rt, &given) {
        Ok(_summary) => ExitCode::SUCCESS,
        Err(fault) => end(rt, &fault),
    })
}

/// Writes the line of a fault, and ends with its status.
fn end(rt: &HostRuntime, fault: &ExitFault) -> ExitCode
    ensures { process_status result ≡ exit_status fault.now }
{
    let (status, line) = exit_line(rt.alloc(), fault);
    end_with(rt, status, line)
}

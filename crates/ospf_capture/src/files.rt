//! The files that the command line names.

ghost use Rattle.std.specs.Prelude.{◌≡◌, All, IfErr, IfOk, OnOk, false};
ghost use Rattle.host_io.specs.Taking.{IsTaken};
ghost use Rattle.host_io.specs.Watched.{has_failed};
ghost use Rattle.ospf_capture.specs.CommandLine.{path_of};
ghost use Rattle.ospf_capture.specs.Exit.{IsNotReplaced};

use crate::against::lists_of;
use crate::arguments::Options;
use crate::fault::not_replaced;
use capture_lines::{ExitFault, FileEnd, Report, index_of, named, reported};
use capture_report::{RunFault, run};
use host_io::{Watched, replace_file};
use std::alloc::Alloc;
use std::fs::{self, File, Files};
use std::io::{self, Write};

/// The file by which Linux gives standard input.
const STANDARD_INPUT: &str = "/dev/stdin";

/// The path of a file that the command line names: standard input for a dash alone.
fn path_of(name: &str) -> &str
    ensures { result.now ≡ path_of name.now }
{
    if name == "-" { STANDARD_INPUT } else { name }
}

/// Opens a file, which the command line names.
pub(crate) fn open_file<'a>(rt: &HostRuntime, name: &'a str) -> Result<File, ExitFault<'a>>
    ensures fault { IfErr result (λ fault. fault ≡ ExitFault.File name.entry FileEnd.Open) }
{
    fs::open(rt, path_of(name)).map_err(|_| ExitFault::File(name, FileEnd::Open))
}

/// Opens all files.
fn opened<'a>(rt: &HostRuntime, names: &[&'a str]) -> Result<Vec<Watched<File>>, ExitFault<'a>>
    ensures { IfOk result (λ files. All (λ file. has_failed file ≡ false) files.items) }
{
    let mut files = Vec::new(rt.alloc());
    'opening: for name in names {
        let file = open_file(rt, *name)?;
        let watched = Watched::new(file);
        files.push(watched)?;
    }
    Ok(files)
}

/// The fault of a run, with the name of its file.
fn fault_of_file<'a>(names: &[&'a str], fault: RunFault) -> ExitFault<'a> {
    match names.get(index_of(fault)) {
        Some(name) => named(*name, fault),
        None => named("", fault),
    }
}

/// Prints the lines of what each file contains, and of notices, and those of warnings.
fn print_report<'a>(rt: &HostRuntime, report: &Report) -> Result<(), ExitFault<'a>> {
    let mut out = io::writer(rt);
    out.write_all(report.files.as_bytes())
        .map_err(|_| ExitFault::Output)?;
    out.write_all(report.notices.as_bytes())
        .map_err(|_| ExitFault::Output)?;
    // Where standard error accepts no line, the status alone reports it.
    let _ = rt.stderr().write_all(report.warnings.as_bytes());
    Ok(())
}

/// Writes the dump to its file, which is replaced once the new one is whole.
fn write_dump<'a, R: Files + Alloc>(rt: &R, path: &'a str, dump: &[u8]) -> Result<(), ExitFault<'a>>
    ensures taken { OnOk result (IsTaken R.File.contents dump.now) }
    ensures fault { IfErr result (IsNotReplaced path.entry) }
{
    replace_file(rt, path, dump).map_err(|fault| not_replaced(path, fault))
}

/// Reads the lists and the files, reports what each file contains and what is missing, and writes
/// the dump to its file. The answer is whether nothing is missing that the planner needs.
///
/// The dump is written only after all files are read and joined, and the lines are printed.
pub(crate) fn make_dump<'a>(
    rt: &HostRuntime,
    options: &Options<'a>,
) -> Result<bool, ExitFault<'a>> {
    let names = options.files.as_slice();
    let mut files = opened(rt, names)?;
    let against = options.against.as_slice();
    let lists = lists_of(rt, against)?;
    let mut dump = Watched::new(Vec::new(rt.alloc()));
    let made = run(rt.alloc(), options.flushed, &mut files, &mut dump).map_err(
        |fault| fault_of_file(names, fault),
    )?;
    let report = reported(rt.alloc(), &made, names, against, &lists)?;
    print_report(rt, &report)?;
    if let Some(path) = options.out {
        write_dump(rt, path, dump.into_inner().as_slice())?;
    }
    Ok(report.warnings.is_empty())
}

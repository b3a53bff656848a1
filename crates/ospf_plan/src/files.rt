//! The files that the command line names.

ghost use Rattle.std.specs.Prelude.{◌≡◌, true, false, is_some, IfErr, IfSome, IsOk, OnOk, []};
ghost use Rattle.host_io.specs.Watched.{inner_of};
ghost use Rattle.host_io.specs.Taking.{IsTaken};
ghost use Rattle.whole_run.specs.Streams.{has_any_failed};
ghost use Rattle.ospf_plan.specs.Exit.{not_replaced, IsNotReplaced};

use crate::arguments::Options;
use crate::fault::{ExitFault, FileArg};
use host_io::{ReplaceFault, Watched, replace_file};
use std::alloc::Alloc;
use std::fs::{self, Files};
use std::io::{self, BufWriter, Read, Write};
use whole_run::{RunFault, SAMPLE, Summary, run};

/// A folder that is there on every system.
const ROOT: &str = "/";

/// Opens the inputs, runs, and writes the dump and the session that the script leaves to their
/// files.
pub(crate) fn run_files(rt: &HostRuntime, options: &Options<'_>) -> Result<Summary, ExitFault> {
    // A file that is opened gets the least free descriptor. So where standard input is closed, this
    // folder gets its place, and not the dump: reading the script then fails, as it should. Else it
    // gets another one, which nobody reads; where it is not opened, nothing is lost by it.
    let _place = fs::open(rt, ROOT);
    match options.dump {
        None => run_on_dump(rt, options, SAMPLE),
        Some(path) => run_on_dump(rt, options, open_file(rt, path, FileArg::Dump)?),
    }
}

/// Opens a file, which the command line gives for an option.
fn open_file<R: Files>(rt: &R, path: &str, name: FileArg) -> Result<R::File, ExitFault>
    ensures fault { IfErr result (λ fault. fault ≡ ExitFault.Open name) }
{
    fs::open(rt, path).map_err(|_| ExitFault::Open(name))
}

/// Opens the script, and runs it on a dump.
fn run_on_dump<R: Read + Drop>(
    rt: &HostRuntime,
    options: &Options<'_>,
    dump: R,
) -> Result<Summary, ExitFault> {
    match options.script {
        None => run_script(rt, options, dump, rt.reader()),
        Some(path) => run_script(rt, options, dump, open_file(rt, path, FileArg::Script)?),
    }
}

/// Runs a script on a dump. The replies go to standard output; the dump and the session that the
/// script leaves go to their files, which are opened only when the whole run went well.
fn run_script<R: Read + Drop, S: Read + Drop>(
    rt: &HostRuntime,
    options: &Options<'_>,
    dump: R,
    script: S,
) -> Result<Summary, ExitFault> {
    let mut dump = Watched::new(dump);
    let mut script = Watched::new(script);
    let mut replies = Watched::new(buffered(rt, io::writer(rt))?);
    let mut out = memory_for(rt, options.out);
    let mut save = memory_for(rt, options.save);
    let alloc = rt.alloc();
    let ended = run(
        alloc,
        &mut dump,
        &mut script,
        &mut replies,
        &mut out,
        &mut save,
    );
    // A write to memory fails for want of it alone.
    if has_failed(&out) || has_failed(&save) {
        return Err(ExitFault::Run(RunFault::OutOfMemory));
    }
    let summary = ended.map_err(ExitFault::Run)?;
    end_replies(replies.into_inner())?;
    write_named(rt, options.out, out, FileArg::Out)?;
    write_named(rt, options.save, save, FileArg::Save)?;
    Ok(summary)
}

/// For this number of bytes of replies there is room before they are written.
const REPLY_ROOM: usize = 65_536;

/// A writer that hands on many replies at once. Where a run ends before they are flushed, those
/// that are left are written as it is dropped.
fn buffered<W: Write + Drop>(rt: &HostRuntime, writer: W) -> Result<BufWriter<W>, ExitFault> {
    match BufWriter::with_capacity(rt.alloc(), REPLY_ROOM, writer) {
        Ok(replies) => Ok(replies),
        Err(_) => Err(ExitFault::Run(RunFault::OutOfMemory)),
    }
}

/// Sees to it that all replies are written.
fn end_replies<W: Write + Drop>(replies: BufWriter<W>) -> Result<(), ExitFault> {
    match replies.into_inner() {
        Ok(_writer) => Ok(()),
        Err(_) => Err(ExitFault::Run(RunFault::Write)),
    }
}

/// A writer to memory, where a file is named.
fn memory_for(rt: &HostRuntime, path: Option<&str>) -> Option<Watched<Vec<u8>>>
    ensures open { has_any_failed result ≡ false }
    ensures given { is_some result ≡ is_some path.entry }
    ensures empty { IfSome result (λ writer. (inner_of writer).items ≡ []) }
{
    match path {
        None => None,
        Some(_) => Some(Watched::new(Vec::new(rt.alloc()))),
    }
}

/// Whether a writer has failed, if there is one.
fn has_failed(writer: &Option<Watched<Vec<u8>>>) -> bool
    ensures { result ≡ has_any_failed writer.now }
{
    match writer {
        None => false,
        Some(writer) => writer.failed(),
    }
}

/// Writes what a script leaves to its file, if one is named. The file is replaced once the new one
/// is whole.
fn write_named<R: Files + Alloc>(
    rt: &R,
    path: Option<&str>,
    left: Option<Watched<Vec<u8>>>,
    name: FileArg,
) -> Result<(), ExitFault>
    ensures taken { OnOk result (is_some path.entry ≡ true
        → IfSome left (λ left. IsTaken R.File.contents (inner_of left).items)) }
    ensures unnamed { is_some path.entry ≡ false → IsOk result }
    ensures fault { IfErr result (IsNotReplaced name) }
{
    match (path, left) {
        (Some(path), Some(left)) => replace_file(rt, path, left.into_inner().as_slice()).map_err(
            |fault| not_replaced(fault, name),
        ),
        _ => Ok(()),
    }
}

/// The fault of a file that was not replaced.
fn not_replaced(fault: ReplaceFault, name: FileArg) -> ExitFault
    ensures { result ≡ not_replaced fault name }
{
    match fault {
        ReplaceFault::Open => ExitFault::Open(name),
        ReplaceFault::Write => ExitFault::Run(RunFault::Write),
    }
}

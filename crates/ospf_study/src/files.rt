//! The files that the command line names.

ghost use Rattle.std.specs.Prelude.{◌≡◌, ◌↔◌, All, IfErr, IfOk, IfSome, IsOkAnd, IsTrue, OnOk, false, is_some, map, option_map, true};
ghost use Rattle.host_io.specs.Taking.{IsTaken};
ghost use Rattle.host_io.specs.Watched.{has_failed, is_flushed};
ghost use Rattle.whole_run.specs.Streams.{has_any_failed};
ghost use Rattle.whole_study.specs.Calls.{IsRefusal};
ghost use Rattle.whole_study.specs.Run.{has_passed};
ghost use Rattle.whole_study.specs.Streams.{has_file_failed, has_writer_failed};
ghost use Rattle.ospf_study.specs.CommandLine.{IsJson, IsMannerOf, IsStandardInput};
ghost use Rattle.ospf_study.specs.Exit.{IsBeforeRun, IsEndFault, IsNamed, IsNotReplaced, IsNotReplacedFor};

use crate::arguments::Options;
use crate::fault::{ExitFault, FileArg};
use either::{Either, Left, Right};
use host_io::{ReplaceFault, Watched, replace_file};
use std::alloc::Alloc;
use std::fs::{self, File, Files};
use std::io::{self, BufWriter, Input, IsTerminal, Read, Write};
use study_session::Format;
use whole_study::{Ended, Manner, Output, RunFault, RunFiles, StudyFile, Terminal, converse, run};

/// A folder that is there on every system.
const ROOT: &str = "/";

/// The name of standard input among the studies.
const STANDARD_INPUT: &str = "-";

/// Opens the inputs, carries the studies out, and writes the dump that they leave to its file.
/// Returns whether each line was accepted.
///
/// The replies go to standard output, and the lines that name those that are not accepted to
/// standard error. Where the only study is standard input, and that is a terminal, each line is
/// answered before the next one is asked for.
pub(crate) fn run_files<'a>(rt: &HostRuntime, options: &Options<'a>) -> Result<bool, ExitFault<'a>>
    ensures { IfErr result (IsNamed options.now) }
{
    // A file that is opened gets the least free descriptor. So where standard input is closed, this
    // folder gets its place, and not the dump: reading a study then fails, as it should. Else it
    // gets another one, which nobody reads; where it is not opened, nothing is lost by it.
    let _place = fs::open(rt, ROOT);
    let mut files = open_inputs(rt, options)?;
    let stderr = rt.stderr();
    let mut output = Output {
        replies: Watched::new(buffered(rt, io::writer(rt))?),
        errors: Watched::new(io::writer(&stderr)),
    };
    let names = options.studies.as_slice();
    let end = if is_standard_input(names) && rt.stdin().is_terminal() {
        converse_with(rt, options, &mut files, &mut output)
    } else {
        let mut studies = given_studies(rt, names)?;
        let manner = manner_of(options);
        run(rt.alloc(), manner, &mut files, &mut studies, &mut output)
    };
    end_run(rt, options, end)
}

/// Whether the only study is standard input.
fn is_standard_input(names: &[&str]) -> bool
    ensures { IsTrue result ↔ IsStandardInput (map (λ name. name.now) names.now) }
{
    match names {
        [] => true,
        [name] => *name == STANDARD_INPUT,
        _ => false,
    }
}

/// How the options ask for a run.
fn manner_of(options: &Options<'_>) -> Manner
    ensures { IsMannerOf options.now result }
{
    Manner {
        keep_going: options.keep_going,
        wants_dump: options.out.is_some(),
        is_verbose: options.verbose,
        format: format_of(options.format),
    }
}

/// The form of the answers that an option names. Clap takes no other word than these two.
fn format_of(word: Option<&str>) -> Format
    ensures { (result ≡ Format.Json) ↔ IsJson (option_map (λ name. name.now) word.entry) }
{
    match word {
        Some("json") => Format::Json,
        _ => Format::Text,
    }
}

/// Answers the lines that are typed at the terminal that is standard input. The prompts go to
/// standard output, as the replies do.
fn converse_with<W: Write, E: Write>(
    rt: &HostRuntime,
    options: &Options<'_>,
    files: &mut RunFiles<File>,
    output: &mut Output<W, E>,
) -> Result<Ended, RunFault>
    requires files { has_file_failed files.old ≡ false }
    requires output { has_writer_failed output.old ≡ false }
    ensures read { has_file_failed files.new ≡ true → result ≡ Err RunFault.Read }
    ensures write { has_writer_failed output.new ≡ true → result ≡ Err RunFault.Write }
    ensures untouched { IfErr result (λ fault. IsRefusal fault → output.new ≡ output.old) }
    ensures flushed { OnOk result (is_flushed output.new.replies ≡ true) }
    ensures order { has_failed output.new.errors ≡ true → is_flushed output.new.replies ≡ true }
{
    let mut terminal = Terminal {
        input: Watched::new(rt.reader()),
        prompts: Watched::new(io::writer(rt)),
    };
    let manner = manner_of(options);
    converse(rt.alloc(), manner, files, &mut terminal, output)
}

/// Opens a file, which the command line names.
fn open_file<'a>(
    rt: &HostRuntime,
    path: &str,
    name: FileArg,
) -> Result<Watched<File>, ExitFault<'a>>
    ensures fault { IfErr result (λ fault. fault ≡ ExitFault.Open name) }
    ensures open { IfOk result (λ file. has_failed file ≡ false) }
{
    match fs::open(rt, path) {
        Ok(file) => Ok(Watched::new(file)),
        Err(_) => Err(ExitFault::Open(name)),
    }
}

/// Opens a file, where one is named.
fn open_given<'a>(
    rt: &HostRuntime,
    path: Option<&str>,
    name: FileArg,
) -> Result<Option<Watched<File>>, ExitFault<'a>>
    ensures fault { IfErr result (λ fault. fault ≡ ExitFault.Open name) }
    ensures open { IfOk result (λ file. has_any_failed file ≡ false) }
{
    match path {
        None => Ok(None),
        Some(path) => Ok(Some(open_file(rt, path, name)?)),
    }
}

/// Opens the dump, the baseline and the names file.
fn open_inputs<'a>(rt: &HostRuntime, options: &Options<'_>) -> Result<RunFiles<File>, ExitFault<'a>>
    ensures open { IfOk result (λ files. has_file_failed files ≡ false) }
    ensures fault { IfErr result IsBeforeRun }
{
    // Clap requires a dump.
    let Some(dump) = options.dump else {
        return Err(ExitFault::Open(FileArg::Dump));
    };
    Ok(RunFiles {
        dump: open_file(rt, dump, FileArg::Dump)?,
        baseline: open_given(rt, options.baseline, FileArg::Baseline)?,
        names: open_given(rt, options.names, FileArg::Names)?,
    })
}

/// Opens the studies; where none is named, standard input is the only one.
fn given_studies<'a, H: Files + Input + Alloc>(
    rt: &H,
    names: &[&'a str],
) -> Result<Vec<StudyFile<'a, Either<H::File, H::Reader>>, H::A>, ExitFault<'a>>
    ensures open { IfOk result
        (λ studies. All (λ study. has_failed study.reader ≡ false) studies.items) }
    ensures fault { IfErr result IsBeforeRun }
{
    if names.is_empty() {
        standard_input(rt)
    } else {
        open_studies(rt, names)
    }
}

/// Standard input, in place of studies.
fn standard_input<'a, 'n, H: Files + Input + Alloc>(
    rt: &H,
) -> Result<Vec<StudyFile<'n, Either<H::File, H::Reader>>, H::A>, ExitFault<'a>>
    ensures open { IfOk result
        (λ studies. All (λ study. has_failed study.reader ≡ false) studies.items) }
    ensures fault { IfErr result IsBeforeRun }
{
    let mut studies = Vec::new(rt.alloc());
    let reader = Watched::new(Right(rt.reader()));
    let name = STANDARD_INPUT;
    studies.push(StudyFile { name, reader })?;
    Ok(studies)
}

/// Opens the studies, or standard input in place of one.
fn open_studies<'a, H: Files + Input + Alloc>(
    rt: &H,
    names: &[&'a str],
) -> Result<Vec<StudyFile<'a, Either<H::File, H::Reader>>, H::A>, ExitFault<'a>>
    ensures open { IfOk result
        (λ studies. All (λ study. has_failed study.reader ≡ false) studies.items) }
    ensures fault { IfErr result IsBeforeRun }
{
    let mut studies = Vec::new(rt.alloc());
    'opening: for name in names {
        let reader = Watched::new(open_study(rt, *name)?);
        let study = StudyFile {
            name: *name,
            reader,
        };
        studies.push(study)?;
    }
    Ok(studies)
}

/// Opens a study, or standard input.
fn open_study<'a, H: Files + Input>(
    rt: &H,
    name: &'a str,
) -> Result<Either<H::File, H::Reader>, ExitFault<'a>>
    ensures { IfErr result (λ fault. fault ≡ ExitFault.OpenStudy name.entry) }
{
    if name == STANDARD_INPUT {
        return Ok(Right(rt.reader()));
    }
    match fs::open(rt, name) {
        Ok(file) => Ok(Left(file)),
        Err(_) => Err(ExitFault::OpenStudy(name)),
    }
}

/// For this number of bytes of replies there is room before they are written.
const REPLY_ROOM: usize = 65_536;

/// A writer that hands on many replies at once. Where a run ends before they are flushed, those
/// that are left are written as it is dropped.
fn buffered<'a, W: Write + Drop>(rt: &HostRuntime, writer: W) -> Result<BufWriter<W>, ExitFault<'a>>
    ensures { IfErr result IsBeforeRun }
{
    match BufWriter::with_capacity(rt.alloc(), REPLY_ROOM, writer) {
        Ok(replies) => Ok(replies),
        Err(_) => Err(ExitFault::Run("", RunFault::OutOfMemory)),
    }
}

/// Writes the dump that a run leaves to its file, where it has ended well. Returns whether each
/// line was accepted.
fn end_run<'a, R: Files + Alloc>(
    rt: &R,
    options: &Options<'a>,
    end: Result<Ended, RunFault>,
) -> Result<bool, ExitFault<'a>>
    ensures accepted { IfOk result
        (λ accepted. IsOkAnd end (λ ended. accepted ≡ has_passed ended.summary)) }
    ensures taken { OnOk result (IfOk end (λ ended. is_some options.now.out ≡ true
        → IfSome ended.dump (λ dump. IsTaken R.File.contents dump.items))) }
    ensures fault { IfErr result (IsEndFault options.now end) }
{
    match end {
        Ok(ended) => {
            write_out(rt, options.out, &ended)?;
            Ok(ended.summary.has_passed())
        }
        Err(fault) => Err(ExitFault::Run(options.names.unwrap_or(""), fault)),
    }
}

/// Writes the dump that the studies leave to its file, where one is named and there is a dump. The
/// file is replaced once the new one is whole.
fn write_out<'a, R: Files + Alloc>(
    rt: &R,
    path: Option<&str>,
    ended: &Ended,
) -> Result<(), ExitFault<'a>>
    ensures taken { OnOk result (is_some path.entry ≡ true
        → IfSome ended.now.dump (λ dump. IsTaken R.File.contents dump.items)) }
    ensures fault { IfErr result IsNotReplaced }
{
    match (path, &ended.dump) {
        (Some(path), Some(dump)) => match replace_file(rt, path, dump.as_slice()) {
            Ok(()) => Ok(()),
            Err(fault) => Err(not_replaced(fault)),
        },
        _ => Ok(()),
    }
}

/// The fault of a file that was not replaced.
fn not_replaced<'a>(fault: ReplaceFault) -> ExitFault<'a>
    ensures { IsNotReplacedFor fault result }
{
    match fault {
        ReplaceFault::Open => ExitFault::Open(FileArg::Out),
        ReplaceFault::Write => ExitFault::Run("", RunFault::Write),
    }
}

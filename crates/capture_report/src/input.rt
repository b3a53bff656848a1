//! The files of a run.

ghost use Rattle.std.specs.Prelude.{◌≡◌, ◌≢◌, ◌↔◌, ℕ, All, IfErr, IfOk, IfSome, OnOk, false, true};
ghost use Rattle.host_io.specs.Watched.{inner_of, has_failed};
ghost use Rattle.host_io.specs.WholeText.{ConsumesAtMost};
ghost use Rattle.network_files.specs.ParsedFiles.{IsFileOf};
ghost use Rattle.capture_report.specs.Runs.{AreParsed, IsFileEnd, known};
ghost use Rattle.capture_report.specs.steps.Inputs.{IsReadEnd, refusal};

use crate::fault::RunFault;
use host_io::{ReadFault, Watched, read_whole};
use network_files::{FileFault, ParsedFile, read_file};
use std::alloc::Allocator;
use std::io::Read;

/// The greatest length of a file, in bytes.
pub const LONGEST_FILE: usize = 536_870_912;

/// How a run ends at a file that is refused for this fault.
fn refusal(index: usize, fault: FileFault) -> RunFault
    ensures { result ≡ refusal index fault }
{
    match fault {
        FileFault::OutOfMemory => RunFault::OutOfMemory,
        _ => RunFault::Refused(index, fault),
    }
}

/// Reads a whole file, and what it contains. Its place among the files is `index`, from 0.
fn read_input<A: Allocator + Copy, R: Read>(
    alloc: A,
    index: usize,
    file: &mut Watched<R>,
) -> Result<ParsedFile<A>, RunFault>
    requires { has_failed file.old ≡ false }
    ensures parsed { IfOk result (λ parsed. IfSome (R.remaining (inner_of file.old))
        (λ bytes. IsFileOf bytes parsed)) }
    ensures fault { IfErr result (IsFileEnd A (R.remaining (inner_of file.old)) index) }
    ensures failed { (result ≡ Err (RunFault.Read index)) ↔ (has_failed file.new ≡ true) }
    ensures bounded { ConsumesAtMost (R.remaining (inner_of file.old))
        (R.remaining (inner_of file.new)) 536870913 }
{
    let bytes = match read_whole(alloc, file, LONGEST_FILE) {
        Ok(bytes) => bytes,
        Err(ReadFault::Failed) => return Err(RunFault::Read(index)),
        Err(ReadFault::TooLarge) => return Err(RunFault::TooLarge(index)),
        Err(ReadFault::OutOfMemory) => return Err(RunFault::OutOfMemory),
    };
    match read_file(alloc, &bytes) {
        Ok(parsed) => Ok(parsed),
        Err(fault) => Err(refusal(index, fault)),
    }
}

/// Reads all files, one after another, and what they contain.
pub(crate) fn read_files<A: Allocator + Copy, R: Read>(
    alloc: A,
    files: &mut [Watched<R>],
) -> Result<Vec<ParsedFile<A>, A>, RunFault>
    requires { All (λ file. has_failed file ≡ false) files.old }
    ensures parsed { IfOk result (λ parsed. AreParsed (known R.remaining files.old) parsed.items) }
    ensures fault { IfErr result (IsReadEnd A (known R.remaining files.old)) }
    ensures sound { ((k : ℕ) → result ≢ Err (RunFault.Read k))
        → All (λ file. has_failed file ≡ false) files.new }
{
    let mut parsed = Vec::new(alloc);
    for file in files.iter_mut() {
        let index = parsed.len();
        parsed.push(read_input(alloc, index, file)?)?;
    }
    Ok(parsed)
}

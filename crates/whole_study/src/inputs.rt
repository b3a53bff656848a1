//! The inputs of a run, read whole.

ghost use Rattle.std.specs.Prelude.{◌≡◌, ◌≢◌, ◌||◌, ◌↔◌, ◌≤◌, ℕ, All, IfErr, IfOk, IfSome, List, OnOk, Option, Some, false, is_some, length, true};
ghost use Rattle.std.specs.List.{AllZip};
ghost use Rattle.host_io.specs.Watched.{inner_of, has_failed};
ghost use Rattle.host_io.specs.WholeText.{IsAll, IsLonger};
ghost use Rattle.whole_run.specs.Streams.{contents_of, has_any_failed};
ghost use Rattle.whole_study.specs.Calls.{IsTooMuch, MayEndRun, most};
ghost use Rattle.whole_study.specs.Given.{Given};
ghost use Rattle.whole_study.specs.Streams.{HaveBytes, has_file_failed, has_study_failed};
ghost use Rattle.whole_study.specs.steps.Texts.{HasFewBytes, IsEndOf, IsLongAs, IsLongIn, IsReadEnd, IsReadOf, IsShortAs, IsTextOf, MayEndReading, Never, bytes_in, given_in};

use crate::fault::RunFault;
use host_io::{ReadFault, Watched, read_whole};
use lsdb::{DumpFault, DumpFaultKind};
use std::alloc::{Allocator, Global};
use std::io::Read;
use whole_run::read_dump;

/// What a run reads beside the studies.
#[derive(Drop)]
pub struct RunFiles<R> {
    /// The dump, or the saved session.
    pub dump: Watched<R>,
    /// The dump, or the saved session, whose database others are compared with.
    pub baseline: Option<Watched<R>>,
    /// The names file.
    pub names: Option<Watched<R>>,
}

/// A study that a run reads.
#[derive(Drop)]
pub struct StudyFile<'a, S> {
    /// Its name, as it was given.
    pub name: &'a str,
    /// Its text.
    pub reader: Watched<S>,
}

/// The text of a study.
#[derive(Drop)]
pub(crate) struct StudyText<'a, A: Allocator = Global> {
    /// Its name, as it was given.
    pub(crate) name: &'a str,
    /// Its text.
    pub(crate) text: Vec<u8, A>,
}

/// The inputs of a run, as they were read.
#[derive(Drop)]
pub(crate) struct Texts<'a, A: Allocator = Global> {
    /// The dump, or the saved session.
    pub(crate) dump: Vec<u8, A>,
    /// The baseline, where one is given.
    pub(crate) baseline: Option<Vec<u8, A>>,
    /// The names file, where one is given.
    pub(crate) names: Option<Vec<u8, A>>,
    /// The studies, in their order.
    pub(crate) studies: Vec<StudyText<'a, A>, A>,
}

/// The greatest length of a names file and of a study, in bytes, and the greatest number of
/// studies.
pub(crate) const MOST: usize = 1_048_576;

/// The fault of a dump that is longer than the limit.
const TOO_LARGE: DumpFault = DumpFault {
    offset: 0,
    kind: DumpFaultKind::TooLarge,
};

/// How an input is read, and what is reported where it is too large.
#[derive(Clone, Copy, Debug)]
enum Input {
    /// The dump, or the saved session.
    Dump,
    /// The baseline.
    Baseline,
    /// The names file or a study.
    Text,
}

/// The fault of an input that is longer than its limit.
fn too_large<A: Allocator>(input: Input) -> RunFault<A>
    ensures end { (known : Option (List ℕ)) → IsLongAs input known → IsEndOf input known result }
    ensures early { MayEndReading result }
    ensures read { result ≢ RunFault.Read }
{
    match input {
        Input::Dump => RunFault::Dump(TOO_LARGE),
        Input::Baseline => RunFault::Baseline(TOO_LARGE),
        Input::Text => RunFault::TooLarge,
    }
}

/// Reads the bytes of an input.
fn read_bytes<A: Allocator + Copy, R: Read>(
    alloc: A,
    input: Input,
    reader: &mut Watched<R>,
) -> Result<Vec<u8, A>, ReadFault>
    requires { has_failed reader.old ≡ false }
    ensures whole { IfOk result (λ bytes. IsAll (R.remaining (inner_of reader.old)) bytes.items) }
    ensures within { IfOk result (IsShortAs input) }
    ensures too_large { result ≡ Err ReadFault.TooLarge
        → IsLongAs input (R.remaining (inner_of reader.old)) }
    ensures failed { (result ≡ Err ReadFault.Failed) ↔ (has_failed reader.new ≡ true) }
{
    match input {
        Input::Dump | Input::Baseline => read_dump(alloc, reader),
        Input::Text => read_whole(alloc, reader, MOST),
    }
}

/// Reads an input.
fn read_input<A: Allocator + Copy, R: Read>(
    alloc: A,
    input: Input,
    reader: &mut Watched<R>,
) -> Result<Vec<u8, A>, RunFault<A>>
    requires { has_failed reader.old ≡ false }
    ensures whole { IfOk result (λ bytes. IsAll (R.remaining (inner_of reader.old)) bytes.items) }
    ensures within { IfOk result (IsShortAs input) }
    ensures end { IfErr result (IsEndOf input (R.remaining (inner_of reader.old))) }
    ensures early { IfErr result MayEndReading }
    ensures failed { (result ≡ Err RunFault.Read) ↔ (has_failed reader.new ≡ true) }
{
    match read_bytes(alloc, input, reader) {
        Ok(bytes) => Ok(bytes),
        Err(ReadFault::Failed) => Err(RunFault::Read),
        Err(ReadFault::TooLarge) => Err(too_large(input)),
        Err(ReadFault::OutOfMemory) => Err(RunFault::OutOfMemory),
    }
}

/// Reads an input, where one is given.
fn read_given<A: Allocator + Copy, R: Read>(
    alloc: A,
    input: Input,
    reader: &mut Option<Watched<R>>,
) -> Result<Option<Vec<u8, A>>, RunFault<A>>
    requires { has_any_failed reader.old ≡ false }
    ensures whole { IfOk result (λ bytes.
        IsReadOf R.remaining reader.old (bytes_in bytes)) }
    ensures within { IfOk result (λ bytes. IfSome bytes (IsShortAs input)) }
    ensures end { IfErr result (λ fault. (is_some reader.old ≡ true)
        × IsEndOf input (contents_of R.remaining reader.old) fault) }
    ensures early { IfErr result MayEndReading }
    ensures failed { (result ≡ Err RunFault.Read) ↔ (has_any_failed reader.new ≡ true) }
{
    match reader {
        None => Ok(None),
        Some(reader) => Ok(Some(read_input(alloc, input, reader)?)),
    }
}

/// Reads a study.
fn read_study<'a, A: Allocator + Copy, S: Read>(
    alloc: A,
    file: &mut StudyFile<'a, S>,
) -> Result<StudyText<'a, A>, RunFault<A>>
    requires { has_failed file.old.reader ≡ false }
    ensures whole { IfOk result (IsTextOf S.remaining file.old) }
    ensures within { IfOk result HasFewBytes }
    ensures end { IfErr result
        (IsReadEnd Never Never (IsLonger (S.remaining (inner_of file.old.reader)) most)) }
    ensures early { IfErr result MayEndReading }
    ensures failed { (result ≡ Err RunFault.Read) ↔ (has_failed file.new.reader ≡ true) }
{
    let text = read_input(alloc, Input::Text, &mut file.reader)?;
    Ok(StudyText {
        name: file.name,
        text,
    })
}

/// Reads the studies, one after another.
fn read_studies<'a, A: Allocator + Copy, S: Read>(
    alloc: A,
    files: &mut [StudyFile<'a, S>],
) -> Result<Vec<StudyText<'a, A>, A>, RunFault<A>>
    requires { All (λ file. has_failed file.reader ≡ false) files.old }
    ensures whole { IfOk result (λ texts. AllZip (IsTextOf S.remaining) files.old texts.items) }
    ensures within { IfOk result (λ texts. All HasFewBytes texts.items) }
    ensures end { IfErr result (IsReadEnd Never Never (IsLongIn S.remaining files.old)) }
    ensures early { IfErr result MayEndReading }
    ensures failed { (result ≡ Err RunFault.Read) ↔ (has_study_failed files.new ≡ true) }
{
    let mut texts = Vec::new(alloc);
    for file in files.iter_mut() {
        texts.push(read_study(alloc, file)?)?;
    }
    Ok(texts)
}

/// Reads all inputs: the dump, the baseline, the names file, and the studies.
pub(crate) fn read_all<'a, A: Allocator + Copy, R: Read, S: Read>(
    alloc: A,
    files: &mut RunFiles<R>,
    studies: &mut [StudyFile<'a, S>],
) -> Result<Texts<'a, A>, RunFault<A>>
    requires files_open { has_file_failed files.old ≡ false }
    requires studies_open { All (λ file. has_failed file.reader ≡ false) studies.old }
    ensures whole { IfOk result (λ texts. (given : Given)
        → HaveBytes R.remaining S.remaining files.old studies.old given
        → given_in texts ≡ given) }
    ensures few { IfOk result (λ texts. length texts.studies.items ≤ most) }
    ensures within { IfOk result (λ texts. All HasFewBytes texts.studies.items) }
    ensures much { IfOk result (λ texts. IsTooMuch (given_in texts) → ⊥) }
    ensures end { (given : Given) → HaveBytes R.remaining S.remaining files.old studies.old given
        → IfErr result (MayEndRun given) }
    ensures early { IfErr result MayEndReading }
    ensures failed { (result ≡ Err RunFault.Read)
        ↔ ((has_file_failed files.new || has_study_failed studies.new) ≡ true) }
{
    if studies.len() > MOST {
        return Err(RunFault::TooLarge);
    }
    let dump = read_input(alloc, Input::Dump, &mut files.dump)?;
    let baseline = read_given(alloc, Input::Baseline, &mut files.baseline)?;
    let names = read_given(alloc, Input::Text, &mut files.names)?;
    let studies = read_studies(alloc, studies)?;
    Ok(Texts {
        dump,
        baseline,
        names,
        studies,
    })
}

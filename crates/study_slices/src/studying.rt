//! A run of a study over bytes in memory.

ghost use Rattle.std.specs.Prelude.{◌≡◌, [], IfErr, IfOk, IfSome, Some, false, is_some, option_map};
ghost use Rattle.host_io.specs.Watched.{inner_of};
ghost use Rattle.whole_run.specs.Streams.{has_any_failed};
ghost use Rattle.whole_study.specs.Calls.{MayEndRun};
ghost use Rattle.study_slices.specs.Studied.{AreTextsOf, given_of};

use host_io::Watched;
use std::alloc::{Allocator, Global};
use whole_study::{Manner, Output, RunFault, RunFiles, StudyFile, Summary, run};

/// The name of the study, which is that of standard input.
const STANDARD_INPUT: &str = "-";

/// What a study writes and leaves.
#[derive(Drop)]
pub struct StudyTexts<A: Allocator = Global> {
    /// What was counted.
    pub summary: Summary,
    /// The reply to each line, and the summary.
    pub replies: Vec<u8, A>,
    /// A line for each line that is not accepted.
    pub errors: Vec<u8, A>,
    /// The dump of branch 0; empty where it is not wanted, or a line is not accepted.
    pub dump: Vec<u8, A>,
}

/// Carries out a study on a dump or on a saved session. An empty names file is as none.
///
/// # Errors
///
/// The first fault of an input, or memory ran out. Then there is no text. `Read` does not come,
/// since bytes in memory can be read, and `Write` means that memory ran out.
pub fn study<A: Allocator + Copy>(
    alloc: A,
    manner: Manner,
    dump: &[u8],
    baseline: Option<&[u8]>,
    names: &[u8],
    study: &[u8],
) -> Result<StudyTexts<A>, RunFault<A>>
    ensures texts { IfOk result (AreTextsOf manner
        (given_of dump.now (option_map (λ bytes. bytes.now) baseline.entry) names.now study.now)) }
    ensures fault { IfErr result (MayEndRun
        (given_of dump.now (option_map (λ bytes. bytes.now) baseline.entry) names.now study.now)) }
{
    let mut files = RunFiles {
        dump: Watched::new(dump),
        baseline: reader_of(baseline),
        names: Some(Watched::new(names)),
    };
    let mut studies = [StudyFile {
        name: STANDARD_INPUT,
        reader: Watched::new(study),
    }];
    let mut output = Output {
        replies: Watched::new(Vec::new(alloc)),
        errors: Watched::new(Vec::new(alloc)),
    };
    let ended = run(alloc, manner, &mut files, &mut studies, &mut output)?;
    Ok(StudyTexts {
        summary: ended.summary,
        replies: output.replies.into_inner(),
        errors: output.errors.into_inner(),
        dump: given_text(alloc, ended.dump),
    })
}

/// A reader of bytes, where they are given.
fn reader_of<'a>(bytes: Option<&'a [u8]>) -> Option<Watched<&'a [u8]>>
    ensures open { has_any_failed result ≡ false }
    ensures given { is_some result ≡ is_some bytes.entry }
    ensures bytes { IfSome result (λ reader. bytes.entry ≡ Some (inner_of reader)) }
{
    match bytes {
        Some(bytes) => Some(Watched::new(bytes)),
        None => None,
    }
}

/// A text, or none as an empty one.
fn given_text<A: Allocator + Copy>(alloc: A, text: Option<Vec<u8, A>>) -> Vec<u8, A>
    ensures given { IfSome text (λ text. result.items ≡ text.items) }
    ensures none { is_some text ≡ false → result.items ≡ [] }
{
    match text {
        Some(text) => text,
        None => Vec::new(alloc),
    }
}

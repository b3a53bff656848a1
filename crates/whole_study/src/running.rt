//! The whole run: inputs are read, studies are carried out, and their replies are written.

ghost use Rattle.std.specs.Prelude.{◌≡◌, ◌&&◌, ◌||◌, ◌⊎◌, ◌↔◌, ◌≤◌, All, IfErr, IfOk, None, OnOk, Some, false, if◌then◌else◌, length, true};
ghost use Rattle.std.specs.Io.KnownBytes.{Appends};
ghost use Rattle.host_io.specs.Watched.{inner_of, has_failed, is_flushed};
ghost use Rattle.host_io.specs.WholeText.{AppendsPrefix};
ghost use Rattle.study_session.specs.Studies.{Study, study_of};
ghost use Rattle.whole_study.specs.Begin.{Begins};
ghost use Rattle.whole_study.specs.Calls.{Ends, FitsInputs, IsBeforeReplies, WritesPrefix, most};
ghost use Rattle.whole_study.specs.Given.{Given};
ghost use Rattle.whole_study.specs.Lines.{all_lines};
ghost use Rattle.whole_study.specs.Run.{dump_of, has_passed, summary_in};
ghost use Rattle.whole_study.specs.Streams.{HaveBytes, has_file_failed, has_study_failed, has_writer_failed};
ghost use Rattle.whole_study.specs.steps.Endings.{MayEndWriting};
ghost use Rattle.whole_study.specs.steps.Texts.{HasFewBytes, bytes_in, lines_in};

use crate::carrying::carry_out;
use crate::fault::RunFault;
use crate::inputs::{RunFiles, StudyFile, StudyText, read_all};
use crate::loading::load;
use crate::output::{Output, write_summary};
use crate::summary::Summary;
use std::alloc::{AllocError, Allocator, Global};
use std::io::{Read, Write};
use study_session::{Format, StudySession};

/// How a run is made.
#[derive(Clone, Copy, Debug, PartialEq, Eq)]
pub struct Manner {
    /// Whether it goes on after a line that is not accepted.
    pub keep_going: bool,
    /// Whether the dump of branch 0 is wanted at the end.
    pub wants_dump: bool,
    /// Whether each edit says what it changed.
    pub is_verbose: bool,
    /// In which form lines are answered.
    pub format: Format,
}

/// How a run ended that carried its studies out.
#[derive(Drop)]
pub struct Ended<A: Allocator = Global> {
    /// What was counted.
    pub summary: Summary,
    /// The dump of branch 0, where it is wanted and the run has passed.
    pub dump: Option<Vec<u8, A>>,
}

/// Reads the dump, or a session, the baseline, the names and the studies; carries the lines of the
/// studies out in one session, up to the first that is not accepted unless the run keeps going;
/// writes the reply to each line, a line for each that is not accepted, and the summary.
///
/// All inputs are read, and then loaded, before the first line is carried out. Before each line of
/// `errors` the replies are flushed.
///
/// # Errors
///
/// The first fault of an input, in the order of reading and then of loading; a writer has failed;
/// or memory ran out.
pub fn run<A: Allocator + Copy, R: Read, S: Read, W: Write, E: Write>(
    alloc: A,
    manner: Manner,
    files: &mut RunFiles<R>,
    studies: &mut [StudyFile<'_, S>],
    output: &mut Output<W, E>,
) -> Result<Ended<A>, RunFault<A>>
    requires files_open { has_file_failed files.old ≡ false }
    requires studies_open { All (λ file. has_failed file.reader ≡ false) studies.old }
    requires output_open { has_writer_failed output.old ≡ false }

    // What is written, counted and left, where the bytes of the inputs are known.
    ensures ended { (given : Given) → HaveBytes R.remaining S.remaining files.old studies.old given
        → IfOk result (λ ended. (s : Study) × (Begins manner given s
        × Ends manner s (all_lines given.studies)
        (W.contents (inner_of output.old.replies)) (W.contents (inner_of output.new.replies))
        (E.contents (inner_of output.old.errors)) (E.contents (inner_of output.new.errors))
        ended)) }
    ensures prefix { (given : Given) → HaveBytes R.remaining S.remaining files.old studies.old given
        → (output.new ≡ output.old) ⊎ ((s : Study) × (Begins manner given s
        × WritesPrefix manner.keep_going s (all_lines given.studies)
        (W.contents (inner_of output.old.replies)) (W.contents (inner_of output.new.replies))
        (E.contents (inner_of output.old.errors)) (E.contents (inner_of output.new.errors)))) }

    // When each fault comes.
    ensures inputs { (given : Given) → HaveBytes R.remaining S.remaining files.old studies.old given
        → FitsInputs given result }
    ensures read { (result ≡ Err RunFault.Read)
        ↔ ((has_file_failed files.new || has_study_failed studies.new) ≡ true) }
    ensures write { (result ≡ Err RunFault.Write) ↔ (has_writer_failed output.new ≡ true) }

    // What is left alone, and in which order both writers are written.
    ensures untouched { IfErr result (λ fault. IsBeforeReplies fault → output.new ≡ output.old) }
    ensures flushed { OnOk result (is_flushed output.new.replies ≡ true) }
    ensures order { has_failed output.new.errors ≡ true → is_flushed output.new.replies ≡ true }
{
    let texts = read_all(alloc, files, studies)?;
    let mut session = load(alloc, &texts, manner)?;
    run_studies(alloc, manner, &mut session, &texts.studies, output)
}

/// Carries studies out in a session, and writes what they are answered, and the summary.
fn run_studies<A: Allocator + Copy, W: Write, E: Write>(
    alloc: A,
    manner: Manner,
    session: &mut StudySession<'_, A>,
    studies: &[StudyText<'_, A>],
    output: &mut Output<W, E>,
) -> Result<Ended<A>, RunFault<A>>
    requires open { has_writer_failed output.old ≡ false }
    requires few { length studies.now ≤ most }
    requires short { All HasFewBytes studies.now }
    ensures ended { IfOk result (Ends manner (study_of session.old) (lines_in studies.now)
        (W.contents (inner_of output.old.replies)) (W.contents (inner_of output.new.replies))
        (E.contents (inner_of output.old.errors)) (E.contents (inner_of output.new.errors))) }
    ensures prefix { WritesPrefix manner.keep_going (study_of session.old) (lines_in studies.now)
        (W.contents (inner_of output.old.replies)) (W.contents (inner_of output.new.replies))
        (E.contents (inner_of output.old.errors)) (E.contents (inner_of output.new.errors)) }
    ensures write { (result ≡ Err RunFault.Write) ↔ (has_writer_failed output.new ≡ true) }
    ensures fault { IfErr result MayEndWriting }
    ensures flushed { OnOk result (is_flushed output.new.replies ≡ true) }
    ensures order { has_failed output.new.errors ≡ true → is_flushed output.new.replies ≡ true }
{
    let format = session.format();
    let mut summary = Summary::new();
    carry_out(
        alloc,
        session,
        studies,
        manner.keep_going,
        output,
        &mut summary,
    )?;
    finish(alloc, manner, format, session, output, summary)
}

/// Writes the summary in the form of the answers, and makes the dump that is left.
pub(crate) fn finish<A: Allocator + Copy, W: Write, E: Write>(
    alloc: A,
    manner: Manner,
    format: Format,
    session: &mut StudySession<'_, A>,
    output: &mut Output<W, E>,
    summary: Summary,
) -> Result<Ended<A>, RunFault<A>>
    requires open { has_writer_failed output.old ≡ false }
    ensures replies { OnOk result (Appends (W.contents (inner_of output.old.replies))
        (W.contents (inner_of output.new.replies)) (summary_in format summary)) }
    ensures part { AppendsPrefix (W.contents (inner_of output.old.replies))
        (W.contents (inner_of output.new.replies)) (summary_in format summary) }
    ensures errors { output.new.errors ≡ output.old.errors }
    ensures ended { IfOk result (λ ended. (ended.summary ≡ summary)
        × (bytes_in ended.dump ≡ (if manner.wants_dump && has_passed summary
        then Some (dump_of (study_of session.old)) else None))) }
    ensures write { (result ≡ Err RunFault.Write) ↔ (has_writer_failed output.new ≡ true) }
    ensures fault { IfErr result MayEndWriting }
    ensures flushed { OnOk result (is_flushed output.new.replies ≡ true) }
{
    write_summary(alloc, format, &summary, output)?;
    let dump = dump_left(session, manner.wants_dump, &summary)?;
    Ok(Ended { summary, dump })
}

/// The dump of branch 0, where it is wanted and the run has passed.
fn dump_left<A: Allocator + Copy>(
    session: &mut StudySession<'_, A>,
    wants_dump: bool,
    summary: &Summary,
) -> Result<Option<Vec<u8, A>>, AllocError>
    ensures { IfOk result (λ dump. bytes_in dump ≡ (if wants_dump && has_passed summary.now
        then Some (dump_of (study_of session.old)) else None)) }
{
    if wants_dump && summary.has_passed() {
        Ok(Some(session.dump(0)?))
    } else {
        Ok(None)
    }
}

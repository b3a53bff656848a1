//! Studies carried out, line after line.

ghost use Rattle.std.specs.Prelude.{◌≡◌, ◌+◌, ◌*◌, ◌≤◌, ◌∷◌, ◌||◌, ◌↔◌, [], All, IfErr, IfOk, OnOk, false, length, map, true};
ghost use Rattle.host_io.specs.Watched.{has_failed, is_flushed};
ghost use Rattle.study_session.specs.Studies.{study_of};
ghost use Rattle.whole_study.specs.Calls.{most};
ghost use Rattle.whole_study.specs.Lines.{study_lines};
ghost use Rattle.whole_study.specs.Run.{summary_of, was_accepted};
ghost use Rattle.whole_study.specs.Streams.{has_writer_failed};
ghost use Rattle.whole_study.specs.steps.Carrying.{CarriesOut, WritesPart, line_at, written};
ghost use Rattle.whole_study.specs.steps.Counting.{Grows, HasRoom};
ghost use Rattle.whole_study.specs.steps.Endings.{MayEndWriting};
ghost use Rattle.whole_study.specs.steps.Texts.{HasFewBytes, lines_in, named_text};

use crate::fault::RunFault;
use crate::inputs::StudyText;
use crate::output::{Line, Output, was_accepted, write_answer};
use crate::summary::Summary;
use std::alloc::Allocator;
use std::io::Write;
use study_answers::Answer;
use study_session::StudySession;
use text_words::cut_at;

/// Whether a run goes on after an answer.
fn goes_on<A: Allocator>(keep_going: bool, answer: &Answer<A>) -> bool
    ensures { result ≡ (keep_going || was_accepted answer.now.outcome) }
{
    keep_going || was_accepted(answer.outcome)
}

/// Carries out one line, writes its answer if it has one, and counts it. Returns whether the run
/// goes on.
pub(crate) fn carry_out_line<A: Allocator + Copy, W: Write, E: Write>(
    alloc: A,
    session: &mut StudySession<'_, A>,
    line: Line<'_>,
    keep_going: bool,
    output: &mut Output<W, E>,
    summary: &mut Summary,
) -> Result<bool, RunFault<A>>
    requires open { has_writer_failed output.old ≡ false }
    requires room { HasRoom 1 summary.old }
    ensures carried { IfOk result (λ goes_on. CarriesOut keep_going (study_of session.old)
        (line_at line.entry ∷ []) (written W.contents E.contents output.old) summary.old
        goes_on (study_of session.new) (written W.contents E.contents output.new) summary.new) }
    ensures grows { OnOk result (Grows 1 summary.old summary.new) }
    ensures part { WritesPart keep_going (study_of session.old) (line_at line.entry ∷ [])
        (written W.contents E.contents output.old) (written W.contents E.contents output.new) }
    ensures failed { (result ≡ Err RunFault.Write) ↔ (has_writer_failed output.new ≡ true) }
    ensures ended { IfErr result MayEndWriting }
    ensures order { has_failed output.new.errors ≡ true → is_flushed output.new.replies ≡ true }
{
    let format = session.format();
    let Some(answer) = session.answer(line.text)? else {
        return Ok(true);
    };
    write_answer(alloc, format, line, &answer, output)?;
    summary.count(&answer);
    Ok(goes_on(keep_going, &answer))
}

/// Carries out the lines of a study, up to the first that is not accepted unless the run keeps
/// going. Returns whether the run goes on.
fn carry_out_study<A: Allocator + Copy, W: Write, E: Write>(
    alloc: A,
    session: &mut StudySession<'_, A>,
    study: &StudyText<'_, A>,
    keep_going: bool,
    output: &mut Output<W, E>,
    summary: &mut Summary,
) -> Result<bool, RunFault<A>>
    requires open { has_writer_failed output.old ≡ false }
    requires room { HasRoom (length study.now.text.items + 1) summary.old }
    ensures carried { IfOk result (λ goes_on. CarriesOut keep_going (study_of session.old)
        (study_lines (named_text study.now)) (written W.contents E.contents output.old)
        summary.old goes_on (study_of session.new)
        (written W.contents E.contents output.new) summary.new) }
    ensures grows { OnOk result
        (Grows (length study.now.text.items + 1) summary.old summary.new) }
    ensures part { WritesPart keep_going (study_of session.old) (study_lines (named_text study.now))
        (written W.contents E.contents output.old) (written W.contents E.contents output.new) }
    ensures failed { (result ≡ Err RunFault.Write) ↔ (has_writer_failed output.new ≡ true) }
    ensures ended { IfErr result MayEndWriting }
    ensures order { has_failed output.new.errors ≡ true → is_flushed output.new.replies ≡ true }
{
    let mut number = 1;
    let mut rest = study.text.as_slice();
    'lines: while let Some((text, after)) = cut_at(rest, b'\n') {
        let file = study.name;
        let line = Line { file, number, text };
        if !carry_out_line(alloc, session, line, keep_going, output, summary)? {
            return Ok(false);
        }
        number += 1;
        rest = after;
    }
    let (file, text) = (study.name, rest);
    let line = Line { file, number, text };
    carry_out_line(alloc, session, line, keep_going, output, summary)
}

/// Carries out studies, one after another, up to the first line that is not accepted unless the run
/// keeps going.
pub(crate) fn carry_out<A: Allocator + Copy, W: Write, E: Write>(
    alloc: A,
    session: &mut StudySession<'_, A>,
    studies: &[StudyText<'_, A>],
    keep_going: bool,
    output: &mut Output<W, E>,
    summary: &mut Summary,
) -> Result<bool, RunFault<A>>
    requires open { has_writer_failed output.old ≡ false }
    requires few { length studies.now ≤ most }
    requires short { All HasFewBytes studies.now }
    requires new { summary.old ≡ summary_of [] }
    ensures carried { IfOk result (λ goes_on. CarriesOut keep_going (study_of session.old)
        (lines_in studies.now) (written W.contents E.contents output.old)
        summary.old goes_on (study_of session.new)
        (written W.contents E.contents output.new) summary.new) }
    ensures part { WritesPart keep_going (study_of session.old) (lines_in studies.now)
        (written W.contents E.contents output.old) (written W.contents E.contents output.new) }
    ensures failed { (result ≡ Err RunFault.Write) ↔ (has_writer_failed output.new ≡ true) }
    ensures ended { IfErr result MayEndWriting }
    ensures order { has_failed output.new.errors ≡ true → is_flushed output.new.replies ≡ true }
{
    'studies: for study in studies {
        if !carry_out_study(alloc, session, study, keep_going, output, summary)? {
            return Ok(false);
        }
    }
    Ok(true)
}

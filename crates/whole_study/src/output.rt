//! What a run writes: replies, and a line for each line that is not accepted.

ghost use Rattle.std.specs.Prelude.{◌≡◌, ◌++◌, ◌↔◌, false, true, IfErr, IfOk, IsErr, OnOk, codes};
ghost use Rattle.std.specs.Io.KnownBytes.{Appends, Keeps};
ghost use Rattle.host_io.specs.Watched.{inner_of, has_failed, is_flushed};
ghost use Rattle.host_io.specs.WholeText.{AppendsPrefix};
ghost use Rattle.whole_study.specs.Lines.{place_text};
ghost use Rattle.whole_study.specs.Run.{document_text, error_line, reply_of, summary_in, was_accepted};
ghost use Rattle.whole_study.specs.Streams.{has_writer_failed};
ghost use Rattle.whole_study.specs.steps.Carrying.{line_at};
ghost use Rattle.whole_study.specs.steps.Endings.{MayEndWriting};

use crate::fault::RunFault;
use crate::summary::{Summary, summary_line};
use host_io::{Watched, WriteFault, write_and_flush, write_whole};
use std::alloc::{AllocError, Allocator};
use std::io::Write;
use study_answers::{Answer, Outcome};
use study_documents::push_place;
use study_session::Format;
use study_text::push_number;

/// The writers of a run.
#[derive(Drop)]
pub struct Output<W, E> {
    /// Where the replies and the summary go.
    pub replies: Watched<W>,
    /// Where a line goes for each line that is not accepted.
    pub errors: Watched<E>,
}

/// A line of a study.
#[derive(Clone, Copy, Debug)]
pub(crate) struct Line<'a> {
    /// The name of the study, as it was given.
    pub(crate) file: &'a str,
    /// The number of the line, counted from 1.
    pub(crate) number: usize,
    /// Its bytes.
    pub(crate) text: &'a [u8],
}

/// The text for standard error of a line that is not accepted: its place, and what is wrong.
fn error_text<A: Allocator + Copy>(
    alloc: A,
    line: Line<'_>,
    error: &[u8],
) -> Result<Vec<u8, A>, AllocError>
    ensures { IfOk result (λ text. text.items
        ≡ place_text (line_at line.entry) ++ error.now ++ codes "\n") }
{
    let mut text = Vec::new(alloc);
    text.extend_from_slice(line.file.as_bytes())?;
    text.push(b':')?;
    push_number(&mut text, line.number as u64)?;
    text.extend_from_slice(b": ")?;
    text.extend_from_slice(error)?;
    text.push(b'\n')?;
    Ok(text)
}

/// Whether a line was accepted.
pub(crate) fn was_accepted(outcome: Outcome) -> bool
    ensures { result ≡ was_accepted outcome }
{
    match outcome {
        Outcome::Accepted => true,
        Outcome::Refused | Outcome::Failed => false,
    }
}

/// Flushes a writer.
pub(crate) fn flush<W: Write>(writer: &mut Watched<W>) -> Result<(), WriteFault>
    requires { has_failed writer.old ≡ false }
    ensures bytes { Keeps (W.contents (inner_of writer.old)) (W.contents (inner_of writer.new)) }
    ensures failed { IsErr result ↔ (has_failed writer.new ≡ true) }
    ensures flushed { OnOk result (is_flushed writer.new ≡ true) }
{
    writer.flush().map_err(|_| WriteFault)
}

/// The document of a line, with the end of the line: its place, and what it is answered.
fn document_text<A: Allocator + Copy>(
    alloc: A,
    line: Line<'_>,
    answer: &[u8],
) -> Result<Vec<u8, A>, AllocError>
    ensures { IfOk result (λ text. text.items ≡ document_text (line_at line.entry) answer.now) }
{
    let mut text = Vec::new(alloc);
    push_place(&mut text, line.file, line.number)?;
    text.extend_from_slice(answer)?;
    text.push(b'\n')?;
    Ok(text)
}

/// Writes the reply to a line: a text, or a document.
fn write_reply<A: Allocator + Copy, W: Write, E: Write>(
    alloc: A,
    format: Format,
    line: Line<'_>,
    answer: &Answer<A>,
    output: &mut Output<W, E>,
) -> Result<(), RunFault<A>>
    requires { has_writer_failed output.old ≡ false }
    ensures replies { OnOk result (Appends (W.contents (inner_of output.old.replies))
        (W.contents (inner_of output.new.replies)) (reply_of
        (record { line = line_at line.entry; answer = answer.now; format = format }))) }
    ensures part { AppendsPrefix (W.contents (inner_of output.old.replies))
        (W.contents (inner_of output.new.replies)) (reply_of
        (record { line = line_at line.entry; answer = answer.now; format = format })) }
    ensures errors { output.new.errors ≡ output.old.errors }
    ensures failed { (result ≡ Err RunFault.Write) ↔ (has_writer_failed output.new ≡ true) }
    ensures ended { IfErr result MayEndWriting }
{
    match format {
        Format::Text => write_whole(&mut output.replies, answer.text.as_slice())?,
        Format::Json => {
            let text = document_text(alloc, line, answer.text.as_slice())?;
            write_whole(&mut output.replies, text.as_slice())?;
        }
    }
    Ok(())
}

/// Writes the reply to a line, and where the line is not accepted the line for standard error,
/// before which the replies are flushed.
pub(crate) fn write_answer<A: Allocator + Copy, W: Write, E: Write>(
    alloc: A,
    format: Format,
    line: Line<'_>,
    answer: &Answer<A>,
    output: &mut Output<W, E>,
) -> Result<(), RunFault<A>>
    requires { has_writer_failed output.old ≡ false }
    ensures replies { OnOk result (Appends (W.contents (inner_of output.old.replies))
        (W.contents (inner_of output.new.replies)) (reply_of
        (record { line = line_at line.entry; answer = answer.now; format = format }))) }
    ensures errors { OnOk result (Appends (E.contents (inner_of output.old.errors))
        (E.contents (inner_of output.new.errors))
        (error_line
        (record { line = line_at line.entry; answer = answer.now; format = format }))) }
    ensures replies_part { AppendsPrefix (W.contents (inner_of output.old.replies))
        (W.contents (inner_of output.new.replies)) (reply_of
        (record { line = line_at line.entry; answer = answer.now; format = format })) }
    ensures errors_part { AppendsPrefix (E.contents (inner_of output.old.errors))
        (E.contents (inner_of output.new.errors))
        (error_line
        (record { line = line_at line.entry; answer = answer.now; format = format })) }
    ensures failed { (result ≡ Err RunFault.Write) ↔ (has_writer_failed output.new ≡ true) }
    ensures ended { IfErr result MayEndWriting }
    ensures order { has_failed output.new.errors ≡ true → is_flushed output.new.replies ≡ true }
{
    write_reply(alloc, format, line, answer, output)?;
    if was_accepted(answer.outcome) {
        return Ok(());
    }
    write_error(alloc, line, answer.error.as_slice(), output)
}

/// Flushes the replies, and writes the line for standard error of a line that is not accepted.
fn write_error<A: Allocator + Copy, W: Write, E: Write>(
    alloc: A,
    line: Line<'_>,
    error: &[u8],
    output: &mut Output<W, E>,
) -> Result<(), RunFault<A>>
    requires { has_writer_failed output.old ≡ false }
    ensures replies { Keeps (W.contents (inner_of output.old.replies))
        (W.contents (inner_of output.new.replies)) }
    ensures errors { OnOk result (Appends (E.contents (inner_of output.old.errors))
        (E.contents (inner_of output.new.errors))
        (place_text (line_at line.entry) ++ error.now ++ codes "\n")) }
    ensures errors_part { AppendsPrefix (E.contents (inner_of output.old.errors))
        (E.contents (inner_of output.new.errors))
        (place_text (line_at line.entry) ++ error.now ++ codes "\n") }
    ensures failed { (result ≡ Err RunFault.Write) ↔ (has_writer_failed output.new ≡ true) }
    ensures ended { IfErr result MayEndWriting }
    ensures order { has_failed output.new.errors ≡ true → is_flushed output.new.replies ≡ true }
{
    flush(&mut output.replies)?;
    let text = error_text(alloc, line, error)?;
    write_and_flush(&mut output.errors, text.as_slice())?;
    Ok(())
}

/// Writes the summary, the last line of the replies, and flushes them.
pub(crate) fn write_summary<A: Allocator + Copy, W: Write, E: Write>(
    alloc: A,
    format: Format,
    summary: &Summary,
    output: &mut Output<W, E>,
) -> Result<(), RunFault<A>>
    requires { has_writer_failed output.old ≡ false }
    ensures whole { OnOk result (Appends (W.contents (inner_of output.old.replies))
        (W.contents (inner_of output.new.replies)) (summary_in format summary.now)) }
    ensures part { AppendsPrefix (W.contents (inner_of output.old.replies))
        (W.contents (inner_of output.new.replies)) (summary_in format summary.now) }
    ensures errors { output.new.errors ≡ output.old.errors }
    ensures failed { (result ≡ Err RunFault.Write) ↔ (has_writer_failed output.new ≡ true) }
    ensures ended { IfErr result MayEndWriting }
    ensures flushed { OnOk result (is_flushed output.new.replies ≡ true) }
{
    let text = summary_line(alloc, format, summary)?;
    write_and_flush(&mut output.replies, text.as_slice())?;
    Ok(())
}

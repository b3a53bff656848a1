//! A run at a terminal: each line that is typed is answered before the next one is asked for.

ghost use Rattle.std.specs.Prelude.{◌≡◌, ◌↔◌, ◌||◌, ◌≤◌, ◌<◌, ◌⊎◌, ℕ, IfErr, IfOk, List, OnOk, Some, [], false, length, true};
ghost use Rattle.std.specs.Io.KnownBytes.{Appends};
ghost use Rattle.host_io.specs.Watched.{has_failed, inner_of, is_flushed};
ghost use Rattle.study_session.specs.Studies.{Study, study_of};
ghost use Rattle.whole_study.specs.Begin.{Begins};
ghost use Rattle.whole_study.specs.Calls.{Ends, FitsInputs, IsRefusal, most};
ghost use Rattle.whole_study.specs.Given.{Given};
ghost use Rattle.whole_study.specs.Run.{summary_of};
ghost use Rattle.whole_study.specs.Streams.{HaveBytes, has_file_failed, has_writer_failed};
ghost use Rattle.whole_study.specs.Typed.{Awaits, Converses, at_terminal, has_terminal_failed, known, prompts_for, typed_lines, with_typed};
ghost use Rattle.whole_study.specs.steps.Typing.{Breaks, Completes, MayEndAsking};

use crate::carrying::carry_out_line;
use crate::fault::RunFault;
use crate::inputs::{MOST, RunFiles, StudyFile, read_all};
use crate::loading::load;
use crate::output::{Line, Output};
use crate::running::{Ended, Manner, finish};
use crate::summary::Summary;
use crate::typing::{Terminal, ask};
use std::alloc::Allocator;
use std::io::{Empty, Read, Write};
use study_session::StudySession;

/// The name of standard input in lines of standard error.
const STANDARD_INPUT: &str = "-";

/// Reads the dump, or a session, the baseline and the names; then asks for one line after another
/// at a terminal, carries each out before it asks for the next, whatever comes of it, up to the end
/// of the input; writes the reply to each, a line for each that is not accepted, and the summary.
///
/// `output` gets what [`run`](crate::run) writes of these lines as a study named `-`, where it
/// keeps going. The replies are flushed before each prompt.
///
/// # Errors
///
/// The first fault of a file, before any line is asked for; the terminal or a writer has failed;
/// all lines together have more than 1,048,576 bytes; or memory ran out.
pub fn converse<A: Allocator + Copy, R: Read, I: Read, P: Write, W: Write, E: Write>(
    alloc: A,
    manner: Manner,
    files: &mut RunFiles<R>,
    terminal: &mut Terminal<I, P>,
    output: &mut Output<W, E>,
) -> Result<Ended<A>, RunFault<A>>
    requires files_open { has_file_failed files.old ≡ false }
    requires terminal_open { has_terminal_failed terminal.old ≡ false }
    requires output_open { has_writer_failed output.old ≡ false }

    // What is written, counted and left, where the bytes of the files and all that is typed are
    // known: one prompt for each line, and what a run that keeps going writes.
    ensures ended { (given : Given) (text : List ℕ)
        → HaveBytes R.remaining R.remaining files.old [] given
        → I.remaining (inner_of terminal.old.input) ≡ Some text
        → IfOk result (λ ended. (s : Study) × (Begins manner given s
        × Ends (at_terminal manner) s (typed_lines text)
        (W.contents (inner_of output.old.replies)) (W.contents (inner_of output.new.replies))
        (E.contents (inner_of output.old.errors)) (E.contents (inner_of output.new.errors))
        ended)) }
    ensures prompts { (text : List ℕ) → I.remaining (inner_of terminal.old.input) ≡ Some text
        → OnOk result (Appends (P.contents (inner_of terminal.old.prompts))
        (P.contents (inner_of terminal.new.prompts)) (prompts_for (typed_lines text))) }

    // What is typed and written so far, however the run ends. Where the terminal cannot be read,
    // all lines before the one that is awaited are answered.
    ensures prefix { (given : Given) → HaveBytes R.remaining R.remaining files.old [] given
        → ((output.new ≡ output.old) × (terminal.new ≡ terminal.old))
        ⊎ ((s : Study) × (Begins manner given s
        × ((text : List ℕ) × (Converses s text
        (known I.remaining P.contents W.contents E.contents terminal.old output.old)
        (known I.remaining P.contents W.contents E.contents terminal.new output.new)
        × (has_failed terminal.new.input ≡ true → Awaits s text
        (known I.remaining P.contents W.contents E.contents terminal.old output.old)
        (known I.remaining P.contents W.contents E.contents terminal.new output.new)))))) }

    // When each fault comes.
    ensures inputs { (given : Given) (text : List ℕ)
        → HaveBytes R.remaining R.remaining files.old [] given
        → I.remaining (inner_of terminal.old.input) ≡ Some text
        → FitsInputs (with_typed given text) result }
    ensures read { (result ≡ Err RunFault.Read)
        ↔ ((has_file_failed files.new || has_failed terminal.new.input) ≡ true) }
    ensures write { (result ≡ Err RunFault.Write)
        ↔ ((has_failed terminal.new.prompts || has_writer_failed output.new) ≡ true) }

    // What is left alone, and in which order the streams are read and written.
    ensures untouched { IfErr result (λ fault. IsRefusal fault
        → (output.new ≡ output.old) × (terminal.new ≡ terminal.old)) }
    ensures unread { has_file_failed files.new ≡ true
        → (output.new ≡ output.old) × (terminal.new ≡ terminal.old) }
    ensures flushed { OnOk result (is_flushed output.new.replies ≡ true) }
    ensures order { has_failed output.new.errors ≡ true → is_flushed output.new.replies ≡ true }
    ensures asked { has_terminal_failed terminal.new ≡ true
        → is_flushed output.new.replies ≡ true }
    ensures shown { has_failed terminal.new.input ≡ true
        → is_flushed terminal.new.prompts ≡ true }
{
    let mut no_studies: [StudyFile<'static, Empty>; 0] = [];
    let texts = read_all(alloc, files, &mut no_studies)?;
    let mut session = load(alloc, &texts, manner)?;
    run_typed(alloc, manner, &mut session, terminal, output)
}

/// Carries out the lines that are typed in a session, and writes the summary.
fn run_typed<A: Allocator + Copy, I: Read, P: Write, W: Write, E: Write>(
    alloc: A,
    manner: Manner,
    session: &mut StudySession<'_, A>,
    terminal: &mut Terminal<I, P>,
    output: &mut Output<W, E>,
) -> Result<Ended<A>, RunFault<A>>
    requires terminal_open { has_terminal_failed terminal.old ≡ false }
    requires output_open { has_writer_failed output.old ≡ false }

    // What is typed and written.
    ensures ended { (text : List ℕ) → I.remaining (inner_of terminal.old.input) ≡ Some text
        → IfOk result (Ends (at_terminal manner) (study_of session.old) (typed_lines text)
        (W.contents (inner_of output.old.replies)) (W.contents (inner_of output.new.replies))
        (E.contents (inner_of output.old.errors)) (E.contents (inner_of output.new.errors))) }
    ensures prompts { (text : List ℕ) → I.remaining (inner_of terminal.old.input) ≡ Some text
        → OnOk result (Appends (P.contents (inner_of terminal.old.prompts))
        (P.contents (inner_of terminal.new.prompts)) (prompts_for (typed_lines text))) }
    ensures prefix { (text : List ℕ) × (Converses (study_of session.old) text
        (known I.remaining P.contents W.contents E.contents terminal.old output.old)
        (known I.remaining P.contents W.contents E.contents terminal.new output.new)
        × (has_failed terminal.new.input ≡ true → Awaits (study_of session.old) text
        (known I.remaining P.contents W.contents E.contents terminal.old output.old)
        (known I.remaining P.contents W.contents E.contents terminal.new output.new))) }

    // When each fault comes.
    ensures within { (text : List ℕ) → I.remaining (inner_of terminal.old.input) ≡ Some text
        → OnOk result (length text ≤ most) }
    ensures too_large { (text : List ℕ) → I.remaining (inner_of terminal.old.input) ≡ Some text
        → result ≡ Err RunFault.TooLarge → most < length text }
    ensures read { (result ≡ Err RunFault.Read) ↔ (has_failed terminal.new.input ≡ true) }
    ensures write { (result ≡ Err RunFault.Write)
        ↔ ((has_failed terminal.new.prompts || has_writer_failed output.new) ≡ true) }
    ensures fault { IfErr result MayEndAsking }

    // In which order the streams are read and written.
    ensures flushed { OnOk result (is_flushed output.new.replies ≡ true) }
    ensures order { has_failed output.new.errors ≡ true → is_flushed output.new.replies ≡ true }
    ensures asked { has_terminal_failed terminal.new ≡ true
        → is_flushed output.new.replies ≡ true }
    ensures shown { has_failed terminal.new.input ≡ true
        → is_flushed terminal.new.prompts ≡ true }
{
    let format = session.format();
    let mut summary = Summary::new();
    carry_out_typed(alloc, session, terminal, output, &mut summary)?;
    finish(alloc, manner, format, session, output, summary)
}

/// Asks for one line after another, and carries each out, up to the end of the input. All lines
/// together have at most 1,048,576 bytes.
fn carry_out_typed<A: Allocator + Copy, I: Read, P: Write, W: Write, E: Write>(
    alloc: A,
    session: &mut StudySession<'_, A>,
    terminal: &mut Terminal<I, P>,
    output: &mut Output<W, E>,
    summary: &mut Summary,
) -> Result<(), RunFault<A>>
    requires terminal_open { has_terminal_failed terminal.old ≡ false }
    requires output_open { has_writer_failed output.old ≡ false }
    requires new { summary.old ≡ summary_of [] }
    ensures done { OnOk result (Completes (study_of session.old)
        (known I.remaining P.contents W.contents E.contents terminal.old output.old)
        summary.old (study_of session.new)
        (known I.remaining P.contents W.contents E.contents terminal.new output.new)
        summary.new) }
    ensures broken { IfErr result (Breaks (study_of session.old)
        (known I.remaining P.contents W.contents E.contents terminal.old output.old)
        (known I.remaining P.contents W.contents E.contents terminal.new output.new)) }
    ensures read { (result ≡ Err RunFault.Read) ↔ (has_failed terminal.new.input ≡ true) }
    ensures write { (result ≡ Err RunFault.Write)
        ↔ ((has_failed terminal.new.prompts || has_writer_failed output.new) ≡ true) }
    ensures open { OnOk result (has_terminal_failed terminal.new ≡ false) }
    ensures fault { IfErr result MayEndAsking }
    ensures order { has_failed output.new.errors ≡ true → is_flushed output.new.replies ≡ true }
    ensures asked { has_terminal_failed terminal.new ≡ true
        → is_flushed output.new.replies ≡ true }
    ensures shown { has_failed terminal.new.input ≡ true
        → is_flushed terminal.new.prompts ≡ true }
{
    let mut number = 1;
    let mut limit = MOST;
    'lines: loop {
        let typed = ask(alloc, limit, terminal, &mut output.replies)?;
        let (file, text) = (STANDARD_INPUT, typed.text.as_slice());
        let line = Line { file, number, text };
        carry_out_line(alloc, session, line, true, output, summary)?;
        if typed.is_last {
            return Ok(());
        }
        limit -= typed.text.len() + 1;
        number += 1;
    }
}

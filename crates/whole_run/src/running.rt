//! The whole run: a dump and a script are read, and the replies are written, and the dump and the
//! session that the script leaves.

ghost use Rattle.std.specs.Prelude.{◌≡◌, ◌↔◌, ◌||◌, ◌≤◌, ◌+◌, length, false, true, OnOk, IfOk, IfErr, IfSome, IsErr};
ghost use Rattle.std.specs.Io.KnownBytes.{Appends};
ghost use Rattle.host_io.specs.Watched.{inner_of, has_failed, has_ended};
ghost use Rattle.host_io.specs.WholeText.{AppendsPrefix, ConsumesAtMost, IsLonger};
ghost use Rattle.lsdb.specs.Text.{text};
ghost use Rattle.edit_history.specs.Session.{state};
ghost use Rattle.saved_sessions.specs.Opening.{opened};
ghost use Rattle.saved_sessions.specs.Saved.{saved_text};
ghost use Rattle.branches.specs.Branches.{sessions_of};
ghost use Rattle.whole_run.specs.Run.{answers, lines_of, sessions_after, text_of};
ghost use Rattle.whole_run.specs.Run.{run_answers, run_text, final_dump, final_session};
ghost use Rattle.whole_run.specs.Streams.{contents_of, has_any_failed};
ghost use Rattle.whole_run.specs.Order.{AreUntouched};
ghost use Rattle.whole_run.specs.WholeRun.{IfBoth, IsSummaryOf};
ghost use Rattle.whole_run.specs.Inputs.{longest_script};
ghost use Rattle.whole_run.specs.Calls.{FitsInputs, IsWritten, KeepsReplies, KeepsWriter, ReadsAtMost, Writes, WritesInOrder};
ghost use Rattle.whole_run.specs.steps.Leaving.{HasTexts};
ghost use Rattle.whole_run.specs.steps.Reading.{IsRunEnd};

use crate::fault::RunFault;
use crate::inputs::{read_branches, read_script};
use crate::leaving::{Left, Wanted, texts_left};
use crate::output::write_ends;
use crate::script::{Summary, answer_script};
use branches::Branches;
use host_io::Watched;
use std::alloc::Allocator;
use std::io::{Read, Write};

/// Reads a dump, or a session, and a script, writes the reply to each line, and then the dump that
/// branch 0 is left with to `out` and its session to `save`, where they are given.
///
/// Each of the three is flushed before the next is begun: where one fails, those before it are
/// whole, and those after it are as they were.
pub fn run<A: Allocator + Copy, R: Read, S: Read, W: Write, D: Write, E: Write>(
    alloc: A,
    dump: &mut Watched<R>,
    script: &mut Watched<S>,
    replies: &mut Watched<W>,
    out: &mut Option<Watched<D>>,
    save: &mut Option<Watched<E>>,
) -> Result<Summary, RunFault>
    requires dump_open { has_failed dump.old ≡ false }
    requires script_open { has_failed script.old ≡ false }
    requires replies_open { has_failed replies.old ≡ false }
    requires out_open { has_any_failed out.old ≡ false }
    requires save_open { has_any_failed save.old ≡ false }

    // What is written, where the bytes of both inputs are known.
    ensures replies { Writes run_text (R.remaining (inner_of dump.old))
        (S.remaining (inner_of script.old)) result
        (W.contents (inner_of replies.old)) (W.contents (inner_of replies.new)) }
    ensures out { Writes final_dump (R.remaining (inner_of dump.old))
        (S.remaining (inner_of script.old)) result
        (contents_of D.contents out.old) (contents_of D.contents out.new) }
    ensures save { Writes final_session (R.remaining (inner_of dump.old))
        (S.remaining (inner_of script.old)) result
        (contents_of E.contents save.old) (contents_of E.contents save.new) }
    ensures order { WritesInOrder
        (IsWritten run_text (R.remaining (inner_of dump.old)) (S.remaining (inner_of script.old))
        (W.contents (inner_of replies.old)) (W.contents (inner_of replies.new)))
        (IsWritten final_dump (R.remaining (inner_of dump.old)) (S.remaining (inner_of script.old))
        (contents_of D.contents out.old) (contents_of D.contents out.new))
        result replies.new out.old out.new save.old save.new }
    ensures summary { IfOk result
        (λ summary. IfBoth (R.remaining (inner_of dump.old)) (S.remaining (inner_of script.old))
        (λ bytes script. IsSummaryOf (run_answers bytes script) summary)) }

    // When each fault comes.
    ensures inputs { FitsInputs (R.remaining (inner_of dump.old))
        (S.remaining (inner_of script.old)) result }
    ensures read { (result ≡ Err RunFault.Read)
        ↔ ((has_failed dump.new || has_failed script.new) ≡ true) }
    ensures write { (result ≡ Err RunFault.Write)
        ↔ ((has_failed replies.new || has_any_failed out.new
        || has_any_failed save.new) ≡ true) }

    // What is left alone.
    ensures script_untouched { IfSome (R.remaining (inner_of dump.old))
        (λ bytes. IsErr (opened bytes) → script.new ≡ script.old) }
    ensures kept { KeepsReplies result (S.remaining (inner_of script.new))
        (W.contents (inner_of replies.old)) (W.contents (inner_of replies.new)) }
    ensures unended { has_ended script.new ≡ false → (replies.new ≡ replies.old)
        × AreUntouched out.old out.new save.old save.new }
    ensures out_kept { KeepsWriter result out.old out.new }
    ensures save_kept { KeepsWriter result save.old save.new }
    ensures bounded { ReadsAtMost
        (R.remaining (inner_of dump.old)) (R.remaining (inner_of dump.new))
        (S.remaining (inner_of script.old)) (S.remaining (inner_of script.new)) }
{
    let wanted = Wanted {
        dump: out.is_some(),
        session: save.is_some(),
    };
    let (summary, left) = answer_all(alloc, dump, script, replies, wanted)?;
    let (end, session) = (left.dump.as_slice(), left.session.as_slice());
    write_ends(end, session, replies, out, save)?;
    Ok(summary)
}

/// Reads both inputs, carries out the script, and writes its replies. The texts that are wanted of
/// what the script leaves are answered with the counts.
fn answer_all<A: Allocator + Copy, R: Read, S: Read, W: Write>(
    alloc: A,
    dump: &mut Watched<R>,
    script: &mut Watched<S>,
    replies: &mut Watched<W>,
    wanted: Wanted,
) -> Result<(Summary, Left<A>), RunFault>
    requires dump_open { has_failed dump.old ≡ false }
    requires script_open { has_failed script.old ≡ false }
    requires replies_open { has_failed replies.old ≡ false }
    ensures replies { Writes run_text (R.remaining (inner_of dump.old))
        (S.remaining (inner_of script.old)) result
        (W.contents (inner_of replies.old)) (W.contents (inner_of replies.new)) }
    ensures left { IfOk result
        (λ done. IfBoth (R.remaining (inner_of dump.old)) (S.remaining (inner_of script.old))
        (λ bytes script. HasTexts wanted done.1
        (final_dump bytes script) (final_session bytes script))) }
    ensures summary { IfOk result
        (λ done. IfBoth (R.remaining (inner_of dump.old)) (S.remaining (inner_of script.old))
        (λ bytes script. IsSummaryOf (run_answers bytes script) done.0)) }
    ensures inputs { FitsInputs (R.remaining (inner_of dump.old))
        (S.remaining (inner_of script.old)) result }
    ensures read { (result ≡ Err RunFault.Read)
        ↔ ((has_failed dump.new || has_failed script.new) ≡ true) }
    ensures write { (result ≡ Err RunFault.Write) ↔ (has_failed replies.new ≡ true) }
    ensures script_untouched { IfSome (R.remaining (inner_of dump.old))
        (λ bytes. IsErr (opened bytes) → script.new ≡ script.old) }
    ensures kept { KeepsReplies result (S.remaining (inner_of script.new))
        (W.contents (inner_of replies.old)) (W.contents (inner_of replies.new)) }
    ensures ended { OnOk result (has_ended script.new ≡ true) }
    ensures unended { has_ended script.new ≡ false → replies.new ≡ replies.old }
    ensures bounded { ReadsAtMost
        (R.remaining (inner_of dump.old)) (R.remaining (inner_of dump.new))
        (S.remaining (inner_of script.old)) (S.remaining (inner_of script.new)) }
{
    let mut branches = read_branches(alloc, dump)?;
    run_script(alloc, &mut branches, script, replies, wanted)
}

/// Reads the script, carries it out in the branches of an opened session, and writes its replies.
/// The texts that are wanted of what it leaves are answered with the counts.
fn run_script<A: Allocator + Copy, S: Read, W: Write>(
    alloc: A,
    branches: &mut Branches<A>,
    script: &mut Watched<S>,
    replies: &mut Watched<W>,
    wanted: Wanted,
) -> Result<(Summary, Left<A>), RunFault>
    requires script_open { has_failed script.old ≡ false }
    requires replies_open { has_failed replies.old ≡ false }
    ensures replies { OnOk result (IfSome (S.remaining (inner_of script.old))
        (λ script. Appends (W.contents (inner_of replies.old)) (W.contents (inner_of replies.new))
        (text_of (answers (sessions_of branches.old) (lines_of script))))) }
    ensures left { IfOk result
        (λ done. IfSome (S.remaining (inner_of script.old))
        (λ script. HasTexts wanted done.1
        (text (state (sessions_after (sessions_of branches.old) (lines_of script) 0)))
        (saved_text (sessions_after (sessions_of branches.old) (lines_of script) 0)))) }
    ensures summary { IfOk result
        (λ done. IfSome (S.remaining (inner_of script.old))
        (λ script. IsSummaryOf (answers (sessions_of branches.old) (lines_of script)) done.0)) }
    ensures prefix { IfSome (S.remaining (inner_of script.old))
        (λ script. AppendsPrefix (W.contents (inner_of replies.old))
        (W.contents (inner_of replies.new))
        (text_of (answers (sessions_of branches.old) (lines_of script)))) }
    ensures within { OnOk result
        (IfSome (S.remaining (inner_of script.old)) (λ script. length script ≤ longest_script)) }
    ensures faults { IfErr result
        (IsRunEnd (IsLonger (S.remaining (inner_of script.old)) longest_script)) }
    ensures read { (result ≡ Err RunFault.Read) ↔ (has_failed script.new ≡ true) }
    ensures write { (result ≡ Err RunFault.Write) ↔ (has_failed replies.new ≡ true) }
    ensures kept { KeepsReplies result (S.remaining (inner_of script.new))
        (W.contents (inner_of replies.old)) (W.contents (inner_of replies.new)) }
    ensures ended { OnOk result (has_ended script.new ≡ true) }
    ensures unended { has_ended script.new ≡ false → replies.new ≡ replies.old }
    ensures script_bounded { ConsumesAtMost (S.remaining (inner_of script.old))
        (S.remaining (inner_of script.new)) (longest_script + 1) }
{
    let text = read_script(alloc, script)?;
    let summary = answer_script(alloc, branches, text.as_slice(), replies)?;
    let left = texts_left(alloc, branches, wanted)?;
    Ok((summary, left))
}

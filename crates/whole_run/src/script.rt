//! A script: its lines are carried out in order, and each reply is written.

ghost use Rattle.std.specs.Prelude.{◌≡◌, ◌↔◌, ◌+◌, ◌<◌, ◌≤◌, ◌^◌, if◌then◌else◌, false, true, length, OnOk, IfOk, IfErr};
ghost use Rattle.std.specs.Io.KnownBytes.{Appends};
ghost use Rattle.host_io.specs.Watched.{inner_of, has_failed};
ghost use Rattle.host_io.specs.WholeText.{AppendsPrefix};
ghost use Rattle.edit_script.specs.Line.{meaning};
ghost use Rattle.whole_run.specs.Inputs.{longest_script};
ghost use Rattle.whole_run.specs.Run.{answer_to, after_line, answers, sessions_after, lines_of, text_of};
ghost use Rattle.branches.specs.Branches.{sessions_of};
ghost use Rattle.whole_run.specs.WholeRun.{refused_count};

use crate::fault::RunFault;
use crate::lines::first_line;
use crate::replies::{write_reply, write_script_fault};
use branches::Branches;
use edit_script::{ScriptFault, parse};
use host_io::Watched;
use std::alloc::Allocator;
use std::io::Write;

/// How many lines of a script had a reply, and how many of these were refused, by `refused` or
/// `script`.
#[derive(Clone, Copy, Debug, PartialEq, Eq)]
pub struct Summary {
    /// The lines with a reply.
    pub commands: u64,
    /// The lines whose reply refuses them.
    pub refused: u64,
}

impl Summary {
    /// Counts a line with a reply.
    fn count(&mut self, refused: bool)
        requires room { (self.old.commands + 1 < 2 ^ 64) × (self.old.refused + 1 < 2 ^ 64) }
        ensures commands { self.new.commands ≡ self.old.commands + 1 }
        ensures refused { self.new.refused ≡ self.old.refused + (if refused then 1 else 0) }
    {
        self.commands += 1;
        if refused {
            self.refused += 1;
        }
    }
}

/// Carries out one line, writes its answer if it has one, and counts it.
fn answer_line<A: Allocator + Copy, W: Write>(
    alloc: A,
    branches: &mut Branches<A>,
    line: &[u8],
    replies: &mut Watched<W>,
    summary: &mut Summary,
) -> Result<(), RunFault>
    requires open { has_failed replies.old ≡ false }
    requires room { (summary.old.commands + 1 < 2 ^ 64) × (summary.old.refused + 1 < 2 ^ 64) }
    ensures whole { OnOk result
        (Appends (W.contents (inner_of replies.old)) (W.contents (inner_of replies.new))
        (text_of (answer_to (sessions_of branches.old) (meaning line.now)))) }
    ensures sessions { OnOk result
        (sessions_of branches.new ≡ after_line (sessions_of branches.old) (meaning line.now)) }
    ensures commands { OnOk result
        (summary.new.commands ≡ summary.old.commands + length
        (answer_to (sessions_of branches.old) (meaning line.now))) }
    ensures refused { OnOk result
        (summary.new.refused ≡ summary.old.refused + refused_count
        (answer_to (sessions_of branches.old) (meaning line.now))) }
    ensures prefix { AppendsPrefix (W.contents (inner_of replies.old))
        (W.contents (inner_of replies.new))
        (text_of (answer_to (sessions_of branches.old) (meaning line.now))) }
    ensures failed { (result ≡ Err RunFault.Write) ↔ (has_failed replies.new ≡ true) }
    ensures memory { has_failed replies.new ≡ false
        → IfErr result (λ fault. fault ≡ RunFault.OutOfMemory) }
{
    match parse(line) {
        Err(fault) => match fault {
            ScriptFault::Empty => Ok(()),
            _ => {
                write_script_fault(alloc, fault, replies)?;
                summary.count(true);
                Ok(())
            }
        },
        Ok((branch, command)) => {
            let refused = write_reply(alloc, branches, branch, &command, replies)?;
            summary.count(refused);
            Ok(())
        }
    }
}

/// Carries out the lines of a script, and writes their answers.
pub(crate) fn answer_script<A: Allocator + Copy, W: Write>(
    alloc: A,
    branches: &mut Branches<A>,
    script: &[u8],
    replies: &mut Watched<W>,
) -> Result<Summary, RunFault>
    requires open { has_failed replies.old ≡ false }
    requires size { length script.now ≤ longest_script }
    ensures whole { OnOk result
        (Appends (W.contents (inner_of replies.old)) (W.contents (inner_of replies.new))
        (text_of (answers (sessions_of branches.old) (lines_of script.now)))) }
    ensures sessions { OnOk result
        (sessions_of branches.new ≡ sessions_after (sessions_of branches.old)
        (lines_of script.now)) }
    ensures commands { IfOk result
        (λ summary. summary.commands ≡ length
        (answers (sessions_of branches.old) (lines_of script.now))) }
    ensures refused { IfOk result
        (λ summary. summary.refused ≡ refused_count
        (answers (sessions_of branches.old) (lines_of script.now))) }
    ensures prefix { AppendsPrefix (W.contents (inner_of replies.old))
        (W.contents (inner_of replies.new))
        (text_of (answers (sessions_of branches.old) (lines_of script.now))) }
    ensures failed { (result ≡ Err RunFault.Write) ↔ (has_failed replies.new ≡ true) }
    ensures memory { has_failed replies.new ≡ false
        → IfErr result (λ fault. fault ≡ RunFault.OutOfMemory) }
{
    let mut summary = Summary {
        commands: 0,
        refused: 0,
    };
    let mut rest = Some(script);
    'lines: while let Some(text) = rest {
        let (line, more) = first_line(text);
        answer_line(alloc, branches, line, replies, &mut summary)?;
        rest = more;
    }
    Ok(summary)
}

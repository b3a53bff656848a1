//! Saving a session.

ghost use Rattle.std.specs.Prelude.{◌≡◌, ◌++◌, All, Ok, OnOk, IfOk};
ghost use Rattle.edit_script.specs.Spelling.{IsScriptedUnlessEvent};
ghost use Rattle.edit_history.specs.Session.{edits_of};
ghost use Rattle.lsdb.specs.Lists.{IsDatabase};
ghost use Rattle.saved_sessions.specs.Lines.{lines_of};
ghost use Rattle.saved_sessions.specs.Text.{history_text};
ghost use Rattle.saved_sessions.specs.Opening.{opened};
ghost use Rattle.saved_sessions.specs.Saved.{CanBeSaved, HasNoEvents, saved_text};

use crate::laws::sessions_open_again;
use crate::line::put_line;
use edit_history::Record;
use recalculate::Planner;
use std::alloc::{AllocError, Allocator};

/// Writes the lines of the edits of records.
fn put_lines<A: Allocator + Copy>(
    alloc: A,
    out: &mut Vec<u8, A>,
    records: &[Record<A>],
) -> Result<(), AllocError>
    ensures written { OnOk result
        (out.new.items ≡ out.old.items ++ lines_of (edits_of records.now)) }
    ensures range { OnOk result (All IsScriptedUnlessEvent (edits_of records.now)) }
{
    for record in records {
        put_line(alloc, out, &record.edit())?;
    }
    Ok(())
}

/// Writes how many edits are done and how many are undone, and the lines of the edits.
fn put_history<A: Allocator + Copy>(
    out: &mut Vec<u8, A>,
    planner: &Planner<A>,
) -> Result<(), AllocError>
    requires { IsDatabase planner.now.session.base }
    ensures written { OnOk result (out.new.items ≡ out.old.items
        ++ history_text planner.now.session.done planner.now.session.undone) }
    ensures session { HasNoEvents planner.now.session
        → OnOk result (CanBeSaved planner.now.session) }
{
    let records = planner.records();
    let (done, undone) = (planner.done() as u16, planner.undone() as u16);
    out.extend_from_slice(&done.to_be_bytes())?;
    out.extend_from_slice(&undone.to_be_bytes())?;
    put_lines(planner.database().alloc(), out, records)
}

/// The dump of a session, version 2: its base, how many edits are done and how many are undone,
/// and the lines of the edits. [`open`](crate::open) makes the same session of it, unless one of
/// the edits is an event. The planner is as it was, also where memory runs out, which is the error.
#[tactic(auto, unfolding(crate::specs::Text::session_text))]
pub fn save<A: Allocator + Copy>(planner: &mut Planner<A>) -> Result<Vec<u8, A>, AllocError>
    ensures text { IfOk result (λ bytes. bytes.items ≡ saved_text planner.old.session) }
    ensures opens { HasNoEvents planner.old.session
        → IfOk result (λ bytes. opened bytes.items ≡ Ok planner.old.session) }
    ensures session { HasNoEvents planner.old.session
        → OnOk result (CanBeSaved planner.old.session) }
    ensures kept { planner.new ≡ planner.old }
{
    let mut out = planner.dump_base()?;
    put_history(&mut out, planner)?;
    sessions_open_again();
    Ok(out)
}

//! The edits of a session, read and carried out in turn.

ghost use Rattle.std.specs.Prelude.{◌≡◌, ◌+◌, ◌≤◌, length, IfOk, OnOk};
ghost use Rattle.edit_history.specs.Session.{start};
ghost use Rattle.saved_sessions.specs.Opening.{position_after, edit_at, has_line_feed, history_at, line_at, line_fault, lines_from};
ghost use Rattle.saved_sessions.specs.steps.Reading.{CarriesOn, Gives};

use crate::laws::line_laws;
use crate::line::edit_line;
use crate::read::{OUT_OF_MEMORY, fault, read_counts};
use edit_history::EditFault;
use edit_script::Edit;
use lsdb::{DumpFault, DumpFaultKind};
use recalculate::Planner;
use std::alloc::{AllocError, Allocator};

/// Whether a line feed is among bytes.
fn has_line_feed(bytes: &[u8]) -> bool
    ensures { result ≡ has_line_feed bytes.now }
{
    bytes.iter().any(|byte| *byte == b'\n')
}

/// What is wrong with a line that is no line of an edit.
fn line_fault(line: u16, bytes: &[u8]) -> DumpFaultKind
    ensures { result ≡ line_fault line bytes.now }
{
    if has_line_feed(bytes) {
        DumpFaultKind::BadHistory(line)
    } else {
        DumpFaultKind::Truncated
    }
}

/// The edit of the line at an offset, and the offset after the line.
fn read_edit<A: Allocator + Copy>(
    alloc: A,
    line: u16,
    bytes: &[u8],
    offset: usize,
) -> Result<(Edit, usize), DumpFault>
    requires { offset ≤ length bytes.now }
    ensures edit { Gives (λ x. (x.0, position_after x.1 bytes.now))
        result (edit_at line (position_after offset bytes.now)) }
    ensures within { IfOk result (λ x. x.1 ≤ length bytes.now) }
{
    // A line that is found lies within the bytes.
    line_laws();
    let rest = &bytes[offset..];
    match edit_line(alloc, rest) {
        Ok(Some((edit, byte_count))) => Ok((edit, offset + byte_count)),
        Ok(None) => Err(fault(offset, line_fault(line, rest))),
        Err(AllocError) => Err(OUT_OF_MEMORY),
    }
}

/// Carries out the edit of the line at an offset, and answers the offset after the line.
#[tactic(auto, using(crate::proofs::Doing::one_more), unfolding(crate::specs::Opening::line_at))]
fn carry_out_line<A: Allocator + Copy>(
    alloc: A,
    planner: &mut Planner<A>,
    line: u16,
    bytes: &[u8],
    offset: usize,
) -> Result<usize, DumpFault>
    requires { offset ≤ length bytes.now }
    ensures read { CarriesOn (line_at line planner.old.session (position_after offset bytes.now))
        bytes.now result planner.old planner.new }
    ensures done { OnOk result
        (length planner.new.session.done ≡ length planner.old.session.done + 1) }
{
    let (edit, end) = read_edit(alloc, line, bytes, offset)?;
    match planner.edit(&edit) {
        Ok(()) => Ok(end),
        Err(EditFault::OutOfMemory) => Err(OUT_OF_MEMORY),
        Err(_) => Err(fault(offset, DumpFaultKind::BadHistory(line))),
    }
}

/// Carries out the edits of this number of lines, in turn, and answers the offset after them.
fn carry_out_lines<A: Allocator + Copy>(
    alloc: A,
    planner: &mut Planner<A>,
    count: u16,
    bytes: &[u8],
    offset: usize,
) -> Result<usize, DumpFault>
    requires { offset ≤ length bytes.now }
    ensures read { CarriesOn
        (lines_from count 0 planner.old.session (position_after offset bytes.now))
        bytes.now result planner.old planner.new }
    ensures done { OnOk result
        (length planner.new.session.done ≡ length planner.old.session.done + count) }
{
    let mut end = offset;
    for line in 0..count {
        end = carry_out_line(alloc, planner, line, bytes, end)?;
    }
    Ok(end)
}

/// Carries out the edits after the base, and takes the undone ones back. The planner has no edits
/// before. The offset after the edits is answered.
#[tactic(auto, unfolding(crate::specs::Opening::history_at))]
pub(crate) fn read_history<A: Allocator + Copy>(
    alloc: A,
    planner: &mut Planner<A>,
    bytes: &[u8],
    offset: usize,
) -> Result<usize, DumpFault>
    requires within { offset ≤ length bytes.now }
    requires start { planner.old.session ≡ start planner.old.session.base }
    ensures { CarriesOn (history_at planner.old.session.base (position_after offset bytes.now))
        bytes.now result planner.old planner.new }
{
    let (done, undone, lines) = read_counts(bytes, offset)?;
    let end = carry_out_lines(alloc, planner, done + undone, bytes, lines)?;
    // It is not refused: all of them are done.
    let _ = planner.undo(u32::from(undone));
    Ok(end)
}

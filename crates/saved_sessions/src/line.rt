//! One line of an edit.

ghost use Rattle.std.specs.Prelude.{◌≡◌, ◌==◌, ◌++◌, position, IfOk, OnOk};
ghost use Rattle.edit_script.specs.Spelling.{spelling, IsScriptedUnlessEvent};
ghost use Rattle.saved_sessions.specs.Lines.{line_feed, line_of, edit_spelled, edit_line};

use edit_script::{Command, Edit, edits_are_in_range, parse, print};
use std::alloc::{AllocError, Allocator};

/// The index of the first line feed.
fn first_line_feed(bytes: &[u8]) -> Option<usize>
    ensures { result ≡ position (λ b. b == line_feed) bytes.now }
{
    bytes.iter().position(|byte| *byte == b'\n')
}

/// The edit that a line spells, as it is printed and no other way.
fn edit_spelled<A: Allocator + Copy>(alloc: A, line: &[u8]) -> Result<Option<Edit>, AllocError>
    ensures { IfOk result (λ edit. edit ≡ edit_spelled line.now) }
{
    let Ok((_, Command::Edit(edit))) = parse(line) else {
        return Ok(None);
    };
    let spelled = print(alloc, &edit)?;
    if line == spelled.as_bytes() {
        Ok(Some(edit))
    } else {
        Ok(None)
    }
}

/// The edit of the first line of the bytes, and the length in bytes of the line with its line feed.
/// `None` where the bytes have no line feed, and where the line is not exactly as an edit is
/// printed.
///
/// # Errors
///
/// Memory ran out.
#[tactic(auto, unfolding(crate::specs::Lines::edit_line))]
pub fn edit_line<A: Allocator + Copy>(
    alloc: A,
    bytes: &[u8],
) -> Result<Option<(Edit, usize)>, AllocError>
    ensures { IfOk result (λ found. found ≡ edit_line bytes.now) }
{
    let Some(end) = first_line_feed(bytes) else {
        return Ok(None);
    };
    match edit_spelled(alloc, &bytes[..end])? {
        Some(edit) => Ok(Some((edit, end + 1))),
        None => Ok(None),
    }
}

/// Writes the line of an edit after what was written before. Each number of an edit is in the range
/// of its type, so [`edit_line`] reads the line back, if the edit is no event.
///
/// # Errors
///
/// Memory ran out.
pub fn put_line<A: Allocator + Copy>(
    alloc: A,
    out: &mut Vec<u8, A>,
    edit: &Edit,
) -> Result<(), AllocError>
    ensures written { OnOk result (out.new.items ≡ out.old.items ++ line_of edit.now) }
    ensures range { IsScriptedUnlessEvent edit.now }
{
    edits_are_in_range(edit);
    let spelled = print(alloc, edit)?;
    out.extend_from_slice(spelled.as_bytes())?;
    out.push(b'\n')?;
    Ok(())
}

//! Printing an edit as the line that reads back to it.

ghost use Rattle.std.specs.Prelude.{◌≡◌, false, Ok, IfOk};
ghost use Rattle.std.specs.String.{string_bytes};
ghost use Rattle.edit_script.specs.declared.command.Command.TheVariants as command;
ghost use Rattle.edit_script.specs.Line.{meaning};
ghost use Rattle.edit_script.specs.Spelling.{is_event, spelling};

use crate::edit::Edit;
use crate::laws::edits_are_in_range;
use std::alloc::{AllocError, Allocator};

/// The line of an edit, without a branch and without an end of line.
///
/// [`parse`](crate::parse) reads an edit that is no event back from it, in branch 0.
///
/// # Errors
///
/// Memory ran out.
#[tactic(auto, using(crate::proofs::RoundTrip::reads_back))]
pub fn print<A: Allocator + Copy>(alloc: A, edit: &Edit) -> Result<String<A>, AllocError>
    ensures spelled { IfOk result (λ line. string_bytes line ≡ spelling edit.now) }
    ensures read_back { is_event edit.now ≡ false → IfOk result
        (λ line. meaning (string_bytes line) ≡ Ok (0, command.Edit edit.now)) }
{
    edits_are_in_range(edit);
    format!(in alloc; "{edit}")
}

//! The mark of a branch, which replies begin with.

ghost use Rattle.std.specs.Prelude.{◌≡◌, ◌++◌, OnOk};
ghost use Rattle.branches.specs.Replies.{mark_of};

use std::alloc::{AllocError, Allocator};
use study_text::{push_number, push_word};

/// Adds the mark of a branch: `@0 `.
///
/// # Errors
///
/// Memory ran out.
pub fn push_mark<A: Allocator + Copy>(text: &mut Vec<u8, A>, branch: u8) -> Result<(), AllocError>
    ensures { OnOk result (text.new.items ≡ text.old.items ++ mark_of branch) }
{
    push_word(text, "@")?;
    push_number(text, u64::from(branch))?;
    push_word(text, " ")
}

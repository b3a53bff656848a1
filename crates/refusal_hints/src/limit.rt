//! What is said of an edit or event that a limit refuses.

ghost use Rattle.std.specs.Prelude.{◌≡◌, IfOk};
ghost use Rattle.refusal_hints.specs.LimitHints.{limit_advice};

use crate::advice::Advice;
use edit_history::EditFault;
use std::alloc::{AllocError, Allocator};

/// Of any edit, where a limit is reached.
pub(crate) fn limit_advice<A: Allocator + Copy>(
    alloc: A,
    why: EditFault,
) -> Result<Advice<A>, AllocError>
    ensures { IfOk result (λ it. it ≡ limit_advice why) }
{
    match why {
        EditFault::Full => Advice::of(alloc, 0, "a limit of the dump is reached"),
        EditFault::HistoryFull => Advice::of(alloc, 0, "10000 edits are done"),
        _ => Advice::none(alloc),
    }
}

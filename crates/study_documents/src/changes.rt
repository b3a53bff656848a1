//! Replies about what differs from a baseline.

ghost use Rattle.std.specs.Prelude.{◌≡◌, ◌++◌, OnOk};
ghost use Rattle.study_documents.specs.Replies.{changes_reply};
ghost use Rattle.study_json.specs.Fields.{HaveNumbers, more_text};

use change_lines::{ChangeLine, Changes};
use lsa_codec::RouterId;
use std::alloc::{AllocError, Allocator};
use study_json::{Counts, push_next};
use study_text::push_word;

/// Adds the reply to `changes`.
///
/// # Errors
///
/// Memory ran out. A part of the text may have been added.
pub fn push_changes<A: Allocator + Copy, B: Allocator>(
    text: &mut Vec<u8, A>,
    router: Option<RouterId>,
    changes: &Changes<B>,
    lines: &[ChangeLine<B>],
) -> Result<(), AllocError>
    ensures pushed { OnOk result (text.new.items
        ≡ text.old.items ++ more_text (changes_reply router changes.now lines.now)) }
    ensures numbers { OnOk result
        (HaveNumbers (changes_reply router changes.now lines.now)) }
{
    push_next(text, "router", &router)?;
    push_next(text, "counts", &Counts(changes))?;
    push_next(text, "changes", &lines)?;
    push_word(text, "}")
}

//! What edits of links are answered.

ghost use Rattle.std.specs.Prelude.{◌≡◌, ◌++◌, OnOk};
ghost use Rattle.study_documents.specs.Outcomes.{cost_reply};
ghost use Rattle.study_json.specs.Fields.{HaveNumbers, more_text};

use link_report::LinkLine;
use std::alloc::{AllocError, Allocator};
use study_json::push_next;
use study_text::push_word;

/// Adds the reply to an edit that sets the cost of a link, by what the link was before.
///
/// # Errors
///
/// Memory ran out. A part of the text may have been added.
pub fn push_cost<A: Allocator + Copy, B: Allocator>(
    text: &mut Vec<u8, A>,
    link: &LinkLine<B>,
    cost: u16,
) -> Result<(), AllocError>
    ensures pushed { OnOk result
        (text.new.items ≡ text.old.items ++ more_text (cost_reply link.now cost)) }
    ensures numbers { OnOk result (HaveNumbers (cost_reply link.now cost)) }
{
    push_next(text, "link", link)?;
    push_next(text, "was", &link.link.metric)?;
    push_next(text, "now", &cost)?;
    push_word(text, "}")
}

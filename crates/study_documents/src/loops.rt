//! Replies about loops.

ghost use Rattle.std.specs.Prelude.{◌≡◌, ◌++◌, OnOk};
ghost use Rattle.study_documents.specs.Replies.{loops_reply, microloops_reply};
ghost use Rattle.study_json.specs.Fields.{HaveNumbers, more_text};

use loop_report::{LoopReport, PrefixLoop};
use std::alloc::{AllocError, Allocator};
use study_json::push_next;
use study_text::push_word;

/// Adds the reply to `loops`.
///
/// # Errors
///
/// Memory ran out. A part of the text may have been added.
pub fn push_loops<A: Allocator + Copy, B: Allocator + Copy>(
    text: &mut Vec<u8, A>,
    report: &LoopReport<B>,
) -> Result<(), AllocError>
    ensures pushed { OnOk result (text.new.items ≡ text.old.items
        ++ more_text (loops_reply report.now.loops report.now.blackholes)) }
    ensures numbers { OnOk result
        (HaveNumbers (loops_reply report.now.loops report.now.blackholes)) }
{
    push_next(text, "loops", &report.loops())?;
    push_next(text, "blackholes", &report.blackholes())?;
    push_word(text, "}")
}

/// Adds the reply to `microloops`.
///
/// # Errors
///
/// Memory ran out. A part of the text may have been added.
pub fn push_microloops<A: Allocator + Copy, B: Allocator + Copy>(
    text: &mut Vec<u8, A>,
    count: u32,
    loops: &[PrefixLoop<B>],
) -> Result<(), AllocError>
    ensures pushed { OnOk result (text.new.items
        ≡ text.old.items ++ more_text (microloops_reply count loops.now)) }
    ensures numbers { OnOk result (HaveNumbers (microloops_reply count loops.now)) }
{
    push_next(text, "count", &count)?;
    push_next(text, "loops", &loops)?;
    push_word(text, "}")
}

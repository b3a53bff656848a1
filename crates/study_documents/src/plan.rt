//! Replies to the questions of `ospf-plan`.

ghost use Rattle.std.specs.Prelude.{◌≡◌, ◌++◌, OnOk};
ghost use Rattle.study_documents.specs.Replies.{edit_fields, info_reply, table_reply};
ghost use Rattle.study_json.specs.Fields.{HaveNumbers, more_text};

use recalculate::Info;
use routing_table::Table;
use std::alloc::{AllocError, Allocator};
use study_json::push_next;
use study_text::push_word;

/// Adds the reply to `table`.
///
/// # Errors
///
/// Memory ran out. A part of the text may have been added.
pub fn push_table<A: Allocator + Copy, B: Allocator + Copy>(
    text: &mut Vec<u8, A>,
    table: &Table<B>,
) -> Result<(), AllocError>
    ensures pushed { OnOk result
        (text.new.items ≡ text.old.items ++ more_text (table_reply table.now)) }
    ensures numbers { OnOk result (HaveNumbers (table_reply table.now)) }
{
    push_next(text, "router", &table.router())?;
    push_next(text, "routes", &table.routes().as_slice())?;
    push_word(text, "}")
}

/// Adds what `info` says of virtual links and of edits.
fn push_edits<A: Allocator + Copy>(text: &mut Vec<u8, A>, info: &Info) -> Result<(), AllocError>
    ensures pushed { OnOk result
        (text.new.items ≡ text.old.items ++ more_text (edit_fields info.now)) }
    ensures numbers { OnOk result (HaveNumbers (edit_fields info.now)) }
{
    push_next(text, "vbits", &info.vbits)?;
    push_next(text, "vlinks", &info.vlinks)?;
    push_next(text, "done", &info.done)?;
    push_next(text, "undone", &info.undone)?;
    push_word(text, "}")
}

/// Adds the reply to `info`.
///
/// # Errors
///
/// Memory ran out. A part of the text may have been added.
pub fn push_info<A: Allocator + Copy>(text: &mut Vec<u8, A>, info: &Info) -> Result<(), AllocError>
    ensures pushed { OnOk result
        (text.new.items ≡ text.old.items ++ more_text (info_reply info.now)) }
    ensures numbers { OnOk result (HaveNumbers (info_reply info.now)) }
{
    push_next(text, "areas", &info.areas)?;
    push_next(text, "lsas", &info.lsas)?;
    push_next(text, "as", &info.as_lsas)?;
    push_edits(text, info)
}

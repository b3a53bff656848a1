//! The texts of changes of LSAs.

ghost use Rattle.std.specs.Prelude.{◌≡◌, ◌++◌, OnOk};
ghost use Rattle.network_names.specs.Names.{called};
ghost use Rattle.study_text.specs.Shown.{shown};
ghost use Rattle.lsa_changes.specs.ChangeTexts.{change_text, content_text, front_of};

use crate::change::LsaChange;
use crate::detail::push_detail;
use crate::field::push_field_change;
use crate::link_text::push_link;
use lsa_codec::RouterId;
use network_names::Names;
use std::alloc::{AllocError, Allocator};
use study_text::{push_number_after, push_router, push_word};

/// Adds two numbers of bytes.
fn push_content<A: Allocator + Copy>(
    text: &mut Vec<u8, A>,
    before: usize,
    now: usize,
) -> Result<(), AllocError>
    ensures { OnOk result (text.new.items ≡ text.old.items ++ content_text before now) }
{
    push_number_after(text, "content of ", before as u64)?;
    push_number_after(text, " -> ", now as u64)?;
    push_word(text, " bytes")
}

/// Adds a router after a word.
fn push_member<A: Allocator + Copy>(
    text: &mut Vec<u8, A>,
    names: &Names<'_, A>,
    word: &str,
    router: RouterId,
) -> Result<(), AllocError>
    ensures { OnOk result
        (text.new.items ≡ text.old.items ++ (word.now ++ shown (called names.now) router)) }
{
    push_word(text, word)?;
    push_router(text, names, router)
}

/// Adds what stands before the name of an LSA: `new ` or `gone ` where it came or went.
///
/// # Errors
///
/// Memory ran out.
pub fn push_front<A: Allocator + Copy>(
    text: &mut Vec<u8, A>,
    change: LsaChange,
) -> Result<(), AllocError>
    ensures { OnOk result (text.new.items ≡ text.old.items ++ front_of change) }
{
    match change {
        LsaChange::New(_) => push_word(text, "new "),
        LsaChange::Gone(_) => push_word(text, "gone "),
        _ => Ok(()),
    }
}

/// Adds what stands after the name of an LSA: `mask /24 -> /25`, `new member r3`, or the detail of
/// one that came or went.
///
/// # Errors
///
/// Memory ran out. A part of the text may have been added.
pub fn push_change<A: Allocator + Copy>(
    text: &mut Vec<u8, A>,
    names: &Names<'_, A>,
    change: LsaChange,
) -> Result<(), AllocError>
    ensures { OnOk result
        (text.new.items ≡ text.old.items ++ change_text (called names.now) change) }
{
    match change {
        LsaChange::New(detail) | LsaChange::Gone(detail) => push_detail(text, detail),
        LsaChange::Field(field) => push_field_change(text, field),
        LsaChange::Link(link) => push_link(text, names, link),
        LsaChange::NewMember(router) => push_member(text, names, "new member ", router),
        LsaChange::GoneMember(router) => push_member(text, names, "gone member ", router),
        LsaChange::Content(before, now) => push_content(text, before, now),
    }
}

//! The first lines of replies.

ghost use Rattle.std.specs.Prelude.{◌≡◌, ◌++◌, IfOk, OnOk};
ghost use Rattle.network_names.specs.Names.{called};
ghost use Rattle.study_questions.specs.Texts.{address_after, head_of, number_after, router_after};

use lsa_codec::{Addr, RouterId};
use network_names::Names;
use std::alloc::{AllocError, Allocator};
use study_answers::push_mark;
use study_text::{push_address, push_number, push_router, push_word};
use study_words::{SeeWord, Word};

/// The mark of a branch and the word of a question: `@0 links`.
pub(crate) fn head<A: Allocator + Copy>(
    alloc: A,
    branch: u8,
    word: SeeWord,
) -> Result<Vec<u8, A>, AllocError>
    ensures { IfOk result (λ text. text.items ≡ head_of branch word) }
{
    let mut text = Vec::new(alloc);
    push_mark(&mut text, branch)?;
    push_word(&mut text, word.text())?;
    Ok(text)
}

/// Adds the router that a line names, if it names one.
pub(crate) fn push_router_after<A: Allocator + Copy>(
    text: &mut Vec<u8, A>,
    names: &Names<'_, A>,
    router: Option<RouterId>,
) -> Result<(), AllocError>
    ensures { OnOk result
        (text.new.items ≡ text.old.items ++ router_after (called names.now) router) }
{
    match router {
        Some(router) => {
            push_word(text, " ")?;
            push_router(text, names, router)
        }
        None => Ok(()),
    }
}

/// Adds the address that a line names, if it names one.
pub(crate) fn push_address_after<A: Allocator + Copy>(
    text: &mut Vec<u8, A>,
    address: Option<Addr>,
) -> Result<(), AllocError>
    ensures { OnOk result (text.new.items ≡ text.old.items ++ address_after address) }
{
    match address {
        Some(address) => {
            push_word(text, " ")?;
            push_address(text, address)
        }
        None => Ok(()),
    }
}

/// Adds a number.
pub(crate) fn push_number_after<A: Allocator + Copy>(
    text: &mut Vec<u8, A>,
    number: u64,
) -> Result<(), AllocError>
    ensures { OnOk result (text.new.items ≡ text.old.items ++ number_after number) }
{
    push_word(text, " ")?;
    push_number(text, number)
}

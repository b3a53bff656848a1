//! Words, and what stands after them.

ghost use Rattle.std.specs.Prelude.{◌≡◌, ◌++◌, OnOk, decimal, option_map};
ghost use Rattle.std.specs.Option.{option_copied};
ghost use Rattle.network_names.specs.Names.{called};
ghost use Rattle.study_text.specs.Lists.{after_word};

use crate::number::push_number;
use crate::shown::Shown;
use network_names::Names;
use std::alloc::{AllocError, Allocator};

/// Adds a word.
///
/// # Errors
///
/// Memory ran out.
pub fn push_word<A: Allocator + Copy>(text: &mut Vec<u8, A>, word: &str) -> Result<(), AllocError>
    ensures { OnOk result (text.new.items ≡ text.old.items ++ word.now) }
{
    text.extend_from_slice(word.as_bytes())
}

/// Adds a word and a number.
///
/// # Errors
///
/// Memory ran out.
pub fn push_number_after<A: Allocator + Copy>(
    text: &mut Vec<u8, A>,
    word: &str,
    number: u64,
) -> Result<(), AllocError>
    ensures { OnOk result (text.new.items ≡ text.old.items ++ (word.now ++ decimal number)) }
{
    push_word(text, word)?;
    push_number(text, number)
}

/// Adds a word and an item, if there is one.
///
/// # Errors
///
/// Memory ran out.
pub fn push_after<T: Shown, A: Allocator + Copy>(
    text: &mut Vec<u8, A>,
    names: &Names<'_, A>,
    word: &str,
    item: Option<&T>,
) -> Result<(), AllocError>
    ensures { OnOk result (text.new.items ≡ text.old.items ++ after_word word.now
        (option_map (T.shown_as (called names.now)) (option_copied item.entry))) }
{
    let Some(item) = item else {
        return Ok(());
    };
    push_word(text, word)?;
    item.push_to(text, names)
}

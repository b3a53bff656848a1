//! Texts that loops and blackholes have in common.

ghost use Rattle.std.specs.Prelude.{◌≡◌, ◌++◌, OnOk, codes, decimal, length, map};
ghost use Rattle.network_names.specs.Names.{called};
ghost use Rattle.study_text.specs.Lists.{first_three};
ghost use Rattle.loop_report.specs.Texts.{at_text};

use lsa_codec::{Prefix, RouterId};
use network_names::Names;
use std::alloc::{AllocError, Allocator};
use study_text::{Shown, push_first_three, push_list, push_number_after, push_prefix, push_word};

/// Adds a word, a prefix, and the routers at which something is found for its addresses.
///
/// # Errors
///
/// Memory ran out.
pub(crate) fn push_at<A: Allocator + Copy>(
    text: &mut Vec<u8, A>,
    names: &Names<'_, A>,
    word: &str,
    net: Prefix,
    routers: &[RouterId],
) -> Result<(), AllocError>
    ensures { OnOk result (text.new.items ≡ text.old.items
        ++ (word.now ++ at_text (called names.now) net routers.now)) }
{
    push_word(text, word)?;
    push_prefix(text, net)?;
    push_word(text, " at ")?;
    push_list(text, names, routers)
}

/// Adds what an expectation that failed has found: a word, the number of items, and the first three
/// of them, as `loops 1: 10.4.0.0/16 at r1,r2`.
///
/// # Errors
///
/// Memory ran out.
pub fn push_found<T: Shown, A: Allocator + Copy>(
    text: &mut Vec<u8, A>,
    names: &Names<'_, A>,
    word: &str,
    items: &[T],
) -> Result<(), AllocError>
    ensures { OnOk result (text.new.items ≡ text.old.items ++ (word.now ++ codes " "
        ++ decimal (length items.now)
        ++ first_three (map (T.shown_as (called names.now)) items.now))) }
{
    push_word(text, word)?;
    push_number_after(text, " ", items.len() as u64)?;
    push_first_three(text, names, items)
}

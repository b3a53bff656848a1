//! Rows of lists, as `show ip ospf database` prints them: they have no bodies.

ghost use Rattle.std.specs.Prelude.{◌≡◌, ◌++◌, OnOk, option_map};
ghost use Rattle.frr_text.specs.Words.{words};
ghost use Rattle.frr_text.specs.Rows.{after_row, rows_at, rows_in};

use crate::label::{Label, address_after, marked_after, number_after};
use crate::text::next_word;
use findings::Part;
use std::alloc::{AllocError, Allocator};

/// What follows the fields of a row, where one begins here.
#[tactic(auto, unfolding(crate::specs::Rows::after_row))]
fn after_row(text: &[u8]) -> Option<&[u8]>
    ensures { option_map (λ rest. words rest.now) result ≡ after_row (words text.now) }
{
    let (_id, rest) = address_after(Label::Nothing, text)?;
    let (_adv, rest) = address_after(Label::Nothing, rest)?;
    let (_age, rest) = number_after(0xffff, Label::Nothing, rest)?;
    let (_sequence, rest) = marked_after(0xffff_ffff, Label::Nothing, rest)?;
    let (_checksum, rest) = marked_after(0xffff, Label::Nothing, rest)?;
    Some(rest)
}

/// Adds the row that begins here, if one does.
#[tactic(auto, unfolding(crate::specs::Rows::rows_at))]
fn put_row<A: Allocator + Copy>(parts: &mut Vec<Part<A>, A>, text: &[u8]) -> Result<(), AllocError>
    ensures { OnOk result (parts.new.items ≡ parts.old.items ++ rows_at (words text.now)) }
{
    match after_row(text) {
        Some(_) => {
            parts.push(Part::Listed)?;
            Ok(())
        }
        None => Ok(()),
    }
}

/// Adds the rows of a text.
pub(crate) fn put_rows<A: Allocator + Copy>(
    parts: &mut Vec<Part<A>, A>,
    text: &[u8],
) -> Result<(), AllocError>
    ensures { OnOk result (parts.new.items ≡ parts.old.items ++ rows_in (words text.now)) }
{
    let mut rest = text;
    while let Some((_word, after)) = next_word(rest) {
        put_row(parts, rest)?;
        rest = after;
    }
    Ok(())
}

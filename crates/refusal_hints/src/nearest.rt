//! Of several addresses the one that is most like another.

ghost use Rattle.std.specs.Prelude.{◌≡◌, ◌++◌, IfOk, OnOk, map, option_map};
ghost use Rattle.lsa_codec.specs.Spelling.{address_text};
ghost use Rattle.refusal_hints.specs.Nearest.{has_nearest, nearest};

use lsa_codec::Addr;
use std::alloc::{AllocError, Allocator};
use study_hints::nearest;
use study_text::{push_address, push_word};

/// An address in dotted form.
fn dotted<A: Allocator + Copy>(alloc: A, address: u32) -> Result<Vec<u8, A>, AllocError>
    ensures { IfOk result (λ text. text.items ≡ address_text address) }
{
    let mut text = Vec::new(alloc);
    push_address(&mut text, Addr(address))?;
    Ok(text)
}

/// Addresses in dotted form.
fn all_dotted<A: Allocator + Copy>(
    alloc: A,
    addresses: &[u32],
) -> Result<Vec<Vec<u8, A>, A>, AllocError>
    ensures { IfOk result
        (λ texts. map (λ text. text.items) texts.items ≡ map address_text addresses.now) }
{
    let mut texts = Vec::new(alloc);
    for address in addresses {
        texts.push(dotted(alloc, *address)?)?;
    }
    Ok(texts)
}

/// The text that is most like a word, however little.
fn nearest_text<'t, A: Allocator>(word: &[u8], texts: &'t [Vec<u8, A>]) -> Option<&'t Vec<u8, A>>
    ensures { option_map (λ found. found.now.items) result
        ≡ nearest word.now (map (λ text. text.items) texts.now) }
{
    match nearest(word, texts) {
        Some(found) => Some(found),
        None => texts.first(),
    }
}

/// Adds ` has ` and the address that is most like another one, or else another text.
pub(crate) fn push_nearest<A: Allocator + Copy>(
    alloc: A,
    text: &mut Vec<u8, A>,
    otherwise: &str,
    address: u32,
    those: &[u32],
) -> Result<(), AllocError>
    ensures { OnOk result (text.new.items
        ≡ text.old.items ++ has_nearest otherwise.now address those.now) }
{
    let word = dotted(alloc, address)?;
    let texts = all_dotted(alloc, those)?;
    match nearest_text(&word, &texts) {
        Some(found) => {
            push_word(text, " has ")?;
            text.extend_from_slice(found)
        }
        None => push_word(text, otherwise),
    }
}

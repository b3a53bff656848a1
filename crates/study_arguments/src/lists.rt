//! Words that are lists: routers joined by commas, and words up to the end of a line.

ghost use Rattle.std.specs.Prelude.{◌≡◌};
ghost use Rattle.edit_script.specs.Words.{words};
ghost use Rattle.network_names.specs.Names.{stands_for};
ghost use Rattle.study_arguments.specs.Fault.{Reads};
ghost use Rattle.study_arguments.specs.Lists.{each, neighbors, one_or_more};
ghost use Rattle.study_arguments.specs.Positions.{words_at};

use crate::argument::{Argument, value_of};
use crate::fault::ParseError;
use crate::position::{Position, first_word, next};
use lsa_codec::RouterId;
use network_names::Names;
use std::alloc::Allocator;
use text_words::cut_at;

/// The routers that a word names, joined by `,`.
///
/// # Errors
///
/// S6 for the first part that names none; or memory ran out.
pub fn neighbors<'a, A: Allocator + Copy>(
    alloc: A,
    names: &Names<'_, A>,
    word: &'a [u8],
) -> Result<Vec<RouterId, A>, ParseError<'a>>
    ensures { Reads (λ routers. routers.items) result
        (neighbors (stands_for names.now) word.now) }
{
    let mut routers = Vec::new(alloc);
    let mut rest = word;
    while let Some((part, after)) = cut_at(rest, b',') {
        let router = value_of(names, part)?;
        routers.push(router)?;
        rest = after;
    }
    let last = value_of(names, rest)?;
    routers.push(last)?;
    Ok(routers)
}

/// What the words of a text mean; else the fault of the first that means nothing.
fn each_word<'a, T: Argument, A: Allocator + Copy>(
    alloc: A,
    names: &Names<'_, A>,
    text: &'a [u8],
) -> Result<Vec<T, A>, ParseError<'a>>
    ensures { Reads (λ values. values.items) result
        (each (T.means (stands_for names.now)) (words text.now)) }
{
    let mut values = Vec::new(alloc);
    let mut rest = text;
    while let Some(at) = first_word(rest) {
        let value = value_of(names, at.word)?;
        values.push(value)?;
        rest = at.rest;
    }
    Ok(values)
}

/// What the words from here on mean, of which there is one at least.
///
/// # Errors
///
/// S3 where no word follows; the fault of the first that means nothing; or memory ran out.
#[tactic(auto, unfolding(crate::specs::Lists::one_or_more))]
pub fn one_or_more<'a, T: Argument, A: Allocator + Copy>(
    alloc: A,
    names: &Names<'_, A>,
    line: Position<'a>,
) -> Result<Vec<T, A>, ParseError<'a>>
    ensures { Reads (λ values. values.items) result
        (one_or_more (T.means (stands_for names.now)) (words_at line.entry)) }
{
    next(line)?;
    each_word(alloc, names, line.rest)
}

//! The names of a line.

ghost use Rattle.std.specs.Prelude.{◌≡◌, ◌==◌, List};
ghost use Rattle.network_names.specs.Words.{words};
ghost use Rattle.network_names.specs.File.{Takes, before_comment, with_entry, with_line, with_name, with_names};
ghost use Rattle.network_names.specs.Names.{AreNames, Named};

use crate::fault::{NamesError, NamesFault, NamesFaultKind};
use crate::name::{has_colon, is_name, reads_otherwise};
use crate::names::Names;
use std::alloc::Allocator;
use text_words::{Blanks, address_of, cut_at, next_word};

/// Makes a name of a line stand for an address.
fn add_name<'a, A: Allocator + Copy>(
    names: &mut Names<'a, A>,
    line: usize,
    address: u32,
    word: &'a [u8],
) -> Result<(), NamesError<'a>>
    ensures { (all : List Named) → AreNames all names.old
        → Takes result (with_name line all address word.now) names.new }
{
    if !is_name(word) {
        let kind = NamesFaultKind::BadName;
        return Err(NamesError::Fault(NamesFault { line, kind, word }));
    }
    if reads_otherwise(word) {
        let kind = NamesFaultKind::ReservedName;
        return Err(NamesError::Fault(NamesFault { line, kind, word }));
    }
    let Some(other) = names.address_of(word) else {
        names.add(word, address)?;
        return Ok(());
    };
    if other == address {
        return Ok(());
    }
    let kind = NamesFaultKind::NameTaken;
    Err(NamesError::Fault(NamesFault { line, kind, word }))
}

/// Makes all names of a line stand for its address, from left to right.
fn add_names<'a, A: Allocator + Copy>(
    names: &mut Names<'a, A>,
    line: usize,
    address: u32,
    text: &'a [u8],
) -> Result<(), NamesError<'a>>
    ensures { (all : List Named) → AreNames all names.old
        → Takes result (with_names line all address (words text.now)) names.new }
{
    let mut rest = text;
    while let Some((name, after)) = next_word(Blanks::InLine, rest) {
        add_name(names, line, address, name)?;
        rest = after;
    }
    Ok(())
}

/// Adds the names of a line that begins with a word, its address.
fn add_entry<'a, A: Allocator + Copy>(
    names: &mut Names<'a, A>,
    line: usize,
    word: &'a [u8],
    text: &'a [u8],
) -> Result<(), NamesError<'a>>
    ensures { (all : List Named) → AreNames all names.old
        → Takes result (with_entry line all word.now (words text.now)) names.new }
{
    let Some(address) = address_of(word) else {
        let kind = NamesFaultKind::BadAddress;
        return Err(NamesError::Fault(NamesFault { line, kind, word }));
    };
    match next_word(Blanks::InLine, text) {
        None => {
            let kind = NamesFaultKind::MissingName;
            Err(NamesError::Fault(NamesFault { line, kind, word }))
        }
        Some(_) => add_names(names, line, address, text),
    }
}

/// What stands before the first `#`.
fn before_comment(line: &[u8]) -> &[u8]
    ensures { result.now ≡ before_comment line.now }
{
    match cut_at(line, b'#') {
        Some((front, _)) => front,
        None => line,
    }
}

/// Adds the names of a line with this number.
pub(crate) fn add_line<'a, A: Allocator + Copy>(
    names: &mut Names<'a, A>,
    line: usize,
    text: &'a [u8],
) -> Result<(), NamesError<'a>>
    ensures { (all : List Named) → AreNames all names.old
        → Takes result (with_line line all text.now) names.new }
{
    let Some((word, others)) = next_word(Blanks::InLine, before_comment(text)) else {
        return Ok(());
    };
    if has_colon(word) {
        return Ok(());
    }
    add_entry(names, line, word, others)
}

//! The names of a file.

ghost use Rattle.std.specs.Prelude.{◌≡◌, ◌==◌};
ghost use Rattle.network_names.specs.File.{Reads, names_in};

use crate::fault::NamesError;
use crate::lines::add_line;
use crate::names::Names;
use std::alloc::Allocator;
use text_words::cut_at;

/// Reads the names of a file in the format of /etc/hosts.
///
/// Lines end at a line feed. What follows the first `#` of a line is left out. Words are maximal
/// runs of bytes other than space, tab and carriage return. A line is an address in dotted decimal
/// and one name or more; lines without words, and lines whose first word has a `:`, mean nothing.
/// It takes the time of a search in a tree for each name.
///
/// # Errors
///
/// The first fault of the file, with its line and word, in the order that
/// [`NamesFaultKind`](crate::NamesFaultKind) defines; or memory ran out.
pub fn read_names<'a, A: Allocator + Copy>(
    alloc: A,
    text: &'a [u8],
) -> Result<Names<'a, A>, NamesError<'a>>
    ensures { Reads result (names_in text.now) }
{
    let mut names = Names::new(alloc);
    let mut line = 1;
    let mut rest = text;
    while let Some((front, after)) = cut_at(rest, b'\n') {
        add_line(&mut names, line, front)?;
        line += 1;
        rest = after;
    }
    add_line(&mut names, line, rest)?;
    Ok(names)
}

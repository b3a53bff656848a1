//! A names file, and what a line means with its names.

use network_names::{Names, NamesError, read_names};
use std::alloc::Global;
use std::test::*;
use study_arguments::ParseError;
use study_script::parse;

/// A names file with comments, a line of IPv6, an alias, and a name that stands twice.
pub(crate) const HOSTS: &[u8] = b"# routers
1.1.1.1 r1 r1.example.net # the first
2.2.2.2\tr2\r
3.3.3.3 r3
::1 localhost

1.1.1.1 edge r1
10.0.0.1 lan-1";

/// The text of a word.
pub(crate) fn text_of(word: &[u8]) -> &str {
    std::str::from_utf8(word).unwrap_or("?")
}

/// The names of [`HOSTS`].
pub(crate) fn hosts(alloc: Global) -> Result<Names<'static>, Fail> {
    Ok(read_names(alloc, HOSTS)?)
}

/// What a names file gives: `names`, or the line, the fault and the word.
pub(crate) fn names_text(alloc: Global, text: &str) -> Result<String, Fail> {
    match read_names(alloc, text.as_bytes()) {
        Ok(_) => Ok(String::from_str(alloc, "names")?),
        Err(NamesError::OutOfMemory) => Ok(String::from_str(alloc, "memory")?),
        Err(NamesError::Fault(fault)) => {
            let (code, name, word) = (fault.kind.code(), fault.kind.name(), text_of(fault.word));
            let line = fault.line;
            Ok(format!(in alloc; "{line} {code} {name} {word}")?)
        }
    }
}

/// What a line means with the names of [`HOSTS`]: `none`, the branch and what is asked for, or the
/// fault and the word.
pub(crate) fn meaning(alloc: Global, line: &str) -> Result<String, Fail> {
    let names = hosts(alloc)?;
    match parse(alloc, &names, line.as_bytes()) {
        Ok(None) => Ok(String::from_str(alloc, "none")?),
        Ok(Some((branch, command))) => Ok(format!(in alloc; "{branch} {command:?}")?),
        Err(ParseError::OutOfMemory) => Ok(String::from_str(alloc, "memory")?),
        Err(ParseError::Fault(fault)) => {
            let (code, name, word) = (fault.kind.code(), fault.kind.name(), text_of(fault.word));
            Ok(format!(in alloc; "{code} {name} {word}")?)
        }
    }
}

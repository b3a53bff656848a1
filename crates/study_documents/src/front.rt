//! Where documents begin, and what became of their lines.

ghost use Rattle.std.specs.Prelude.{◌≡◌, ◌++◌, OnOk, codes};
ghost use Rattle.json.specs.Json.{string};
ghost use Rattle.study_documents.specs.Documents.{front_fields, front_text, next_text, place_fields, place_text};
ghost use Rattle.study_json.specs.Fields.{HaveNumbers};

use std::alloc::{AllocError, Allocator};
use study_json::{Text, push_first, push_next};

/// Adds the beginning of a document: the line of a file, as `{"file":"r7.study","line":7`.
///
/// # Errors
///
/// Memory ran out. A part of the text may have been added.
pub fn push_place<A: Allocator + Copy>(
    text: &mut Vec<u8, A>,
    file: &str,
    line: usize,
) -> Result<(), AllocError>
    ensures pushed { OnOk result (text.new.items ≡ text.old.items ++ place_text file.now line) }
    ensures numbers { OnOk result (HaveNumbers (place_fields file.now line)) }
{
    push_first(text, "file", &file)?;
    push_next(text, "line", &line)
}

/// Adds the branch and the word of a line, and what became of it, as
/// `,"branch":0,"word":"lost","answer":"reply"`.
///
/// # Errors
///
/// Memory ran out. A part of the text may have been added.
pub fn push_front<A: Allocator + Copy>(
    text: &mut Vec<u8, A>,
    branch: u8,
    word: &[u8],
    answer: &str,
) -> Result<(), AllocError>
    ensures pushed { OnOk result
        (text.new.items ≡ text.old.items ++ front_text branch word.now answer.now) }
    ensures numbers { OnOk result (HaveNumbers (front_fields branch word.now answer.now)) }
{
    push_next(text, "branch", &u64::from(branch))?;
    push_next(text, "word", &Text(word))?;
    push_next(text, "answer", &answer)
}

/// Adds that a line has a fault.
///
/// # Errors
///
/// Memory ran out. A part of the text may have been added.
pub fn push_faulty<A: Allocator + Copy>(text: &mut Vec<u8, A>) -> Result<(), AllocError>
    ensures { OnOk result (text.new.items
        ≡ text.old.items ++ next_text (codes "answer") (string (codes "fault"))) }
{
    push_next(text, "answer", &"fault")
}

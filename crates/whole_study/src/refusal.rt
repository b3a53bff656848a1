//! The line of a names file that is refused.

ghost use Rattle.std.specs.Prelude.{◌≡◌, IfOk};
ghost use Rattle.whole_study.specs.Refusals.{names_text};

use crate::fault::NamesRefusal;
use std::alloc::{AllocError, Allocator};
use study_hints::push_escaped;
use study_text::push_number;

/// The line of a refused names file, its line feed included: the name of the file, the line, the
/// fault, and the word, as `hosts:7: H3 BadName r!`.
///
/// # Errors
///
/// Memory ran out.
pub fn names_line<A: Allocator + Copy>(
    alloc: A,
    file: &str,
    refusal: &NamesRefusal<A>,
) -> Result<Vec<u8, A>, AllocError>
    ensures { IfOk result (λ line. line.items ≡ names_text file.now refusal.now) }
{
    let mut line = Vec::from_slice(alloc, file.as_bytes())?;
    line.push(b':')?;
    push_number(&mut line, refusal.line as u64)?;
    line.extend_from_slice(b": ")?;
    line.extend_from_slice(refusal.kind.code().as_bytes())?;
    line.push(b' ')?;
    line.extend_from_slice(refusal.kind.name().as_bytes())?;
    line.push(b' ')?;
    push_escaped(&mut line, &refusal.word)?;
    line.push(b'\n')?;
    Ok(line)
}

//! The condition about the findings that make answers wrong.

ghost use Rattle.std.specs.Prelude.{◌≡◌};
ghost use Rattle.network_names.specs.Names.{stands_for};
ghost use Rattle.study_arguments.specs.Fault.{Reads};
ghost use Rattle.study_arguments.specs.Positions.{words_at};
ghost use Rattle.study_script.specs.Conditions.{audit_of};
ghost use Rattle.study_script.specs.Expected.{expected};

use crate::condition::Condition;
use network_names::Names;
use std::alloc::Allocator;
use study_arguments::{Fault, ParseError, Position, end, next, one_or_more};

/// `audit clean` or `audit only KIND..`.
#[tactic(auto, unfolding(crate::specs::Conditions::audit_of))]
pub(crate) fn audit<'a, A: Allocator + Copy>(
    alloc: A,
    names: &Names<'_, A>,
    line: Position<'a>,
) -> Result<Condition<A>, ParseError<'a>>
    ensures { Reads expected result (audit_of (stands_for names.now) (words_at line.entry)) }
{
    let first = next(line)?;
    let word = first.word;
    if word == b"clean".as_slice() {
        end(first)?;
        Ok(Condition::CleanAudit)
    } else if word == b"only".as_slice() {
        let kinds = one_or_more(alloc, names, first)?;
        Ok(Condition::OnlyFindings(kinds))
    } else {
        Err(ParseError::Fault(Fault::bad_word(word)))
    }
}

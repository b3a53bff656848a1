//! Conditions about the pairs of a router and a prefix that are lost or gone.

ghost use Rattle.std.specs.Prelude.{◌≡◌};
ghost use Rattle.network_names.specs.Names.{stands_for};
ghost use Rattle.study_arguments.specs.Fault.{Reads};
ghost use Rattle.study_arguments.specs.Positions.{words_at};
ghost use Rattle.study_script.specs.Conditions.{allowed_of};
ghost use Rattle.study_script.specs.Expected.{pairs_allowed};

use crate::change_conditions::last_number;
use crate::condition::Allowed;
use network_names::Names;
use std::alloc::Allocator;
use study_arguments::{Fault, ParseError, Position, end, one_or_more};

/// `none`, `<= NUMBER` or `only PREFIX..`, the first word of which was read.
#[tactic(auto, unfolding(crate::specs::Conditions::allowed_of))]
pub(crate) fn allowed<'a, A: Allocator + Copy>(
    alloc: A,
    names: &Names<'_, A>,
    line: Position<'a>,
) -> Result<Allowed<A>, ParseError<'a>>
    ensures { Reads pairs_allowed result (allowed_of (stands_for names.now) (words_at line.entry)) }
{
    let word = line.word;
    if word == b"none".as_slice() {
        end(line)?;
        Ok(Allowed::Nothing)
    } else if word == b"<=".as_slice() {
        let most = last_number(names, line)?;
        Ok(Allowed::AtMost(most))
    } else if word == b"only".as_slice() {
        let prefixes = one_or_more(alloc, names, line)?;
        Ok(Allowed::Only(prefixes))
    } else {
        Err(ParseError::Fault(Fault::bad_word(word)))
    }
}

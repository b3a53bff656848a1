//! Conditions about what differs from the baseline.

ghost use Rattle.std.specs.Prelude.{◌≡◌};
ghost use Rattle.network_names.specs.Names.{stands_for};
ghost use Rattle.study_arguments.specs.Fault.{Gives, Is};
ghost use Rattle.study_arguments.specs.Positions.{words_at};
ghost use Rattle.study_script.specs.Conditions.{changes_of, last_number, same_of};
ghost use Rattle.study_script.specs.Expected.{expected};

use crate::condition::Condition;
use network_names::Names;
use std::alloc::Allocator;
use study_arguments::{Fault, Position, end, first_word, next, next_as};

/// `same [ROUTER]`.
#[tactic(auto, unfolding(crate::specs::Conditions::same_of))]
pub(crate) fn same<'a, A: Allocator + Copy>(
    names: &Names<'_, A>,
    line: Position<'a>,
) -> Result<Condition<A>, Fault<'a>>
    ensures { Gives expected result (same_of (stands_for names.now) (words_at line.entry)) }
{
    if first_word(line.rest).is_none() {
        return Ok(Condition::Same(None));
    }
    let (router, after) = next_as(names, line)?;
    end(after)?;
    Ok(Condition::Same(Some(router)))
}

/// A number, and the end of the line.
#[tactic(auto, unfolding(crate::specs::Conditions::last_number))]
pub(crate) fn last_number<'a, A: Allocator + Copy>(
    names: &Names<'_, A>,
    line: Position<'a>,
) -> Result<u32, Fault<'a>>
    ensures { Is result (last_number (stands_for names.now) (words_at line.entry)) }
{
    let (number, after) = next_as(names, line)?;
    end(after)?;
    Ok(number)
}

/// `changes <= NUMBER`.
#[tactic(auto, unfolding(crate::specs::Conditions::changes_of))]
pub(crate) fn changes<'a, A: Allocator + Copy>(
    names: &Names<'_, A>,
    line: Position<'a>,
) -> Result<Condition<A>, Fault<'a>>
    ensures { Gives expected result (changes_of (stands_for names.now) (words_at line.entry)) }
{
    let first = next(line)?;
    let word = first.word;
    if word != b"<=".as_slice() {
        return Err(Fault::bad_word(word));
    }
    let most = last_number(names, first)?;
    Ok(Condition::AtMostChanges(most))
}

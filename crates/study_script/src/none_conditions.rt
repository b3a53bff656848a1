//! Conditions that there is none: loops, blackholes, microloops.

ghost use Rattle.std.specs.Prelude.{◌≡◌};
ghost use Rattle.network_names.specs.Names.{stands_for};
ghost use Rattle.study_arguments.specs.Fault.{Gives};
ghost use Rattle.study_arguments.specs.Positions.{words_at};
ghost use Rattle.study_script.specs.Conditions.{begins_with_digit, has_number, microloops_of, none_of};
ghost use Rattle.study_script.specs.Expected.{expected};

use crate::condition::Condition;
use network_names::Names;
use std::alloc::Allocator;
use study_arguments::{Fault, Position, end, first_word, next, next_as};

/// `none`, and the end of the line.
#[tactic(auto, unfolding(crate::specs::Conditions::none_of))]
pub(crate) fn none<'a>(line: Position<'a>) -> Result<(), Fault<'a>>
    ensures { Gives (λ x. tt) result (none_of (words_at line.entry)) }
{
    let first = next(line)?;
    let word = first.word;
    if word == b"none".as_slice() {
        end(first)
    } else {
        Err(Fault::bad_word(word))
    }
}

/// Whether a word begins with a digit.
fn begins_with_digit(word: &[u8]) -> bool
    ensures { result ≡ begins_with_digit word.now }
{
    match word {
        [first, ..] => first.is_ascii_digit(),
        [] => false,
    }
}

/// Whether a word follows that begins with a digit.
fn has_number(line: Position<'_>) -> bool
    ensures { result ≡ has_number (words_at line.entry) }
{
    match first_word(line.rest) {
        Some(first) => begins_with_digit(first.word),
        None => false,
    }
}

/// `microloops [COUNT] none`.
#[tactic(auto, unfolding(crate::specs::Conditions::microloops_of))]
pub(crate) fn microloops<'a, A: Allocator + Copy>(
    names: &Names<'_, A>,
    line: Position<'a>,
) -> Result<Condition<A>, Fault<'a>>
    ensures { Gives expected result (microloops_of (stands_for names.now) (words_at line.entry)) }
{
    if has_number(line) {
        let (count, after) = next_as(names, line)?;
        none(after)?;
        Ok(Condition::NoMicroloops(Some(count)))
    } else {
        none(line)?;
        Ok(Condition::NoMicroloops(None))
    }
}

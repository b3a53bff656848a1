//! The arguments of a command: how many there are, and what each means.

ghost use Rattle.std.specs.Prelude.{◌≡◌, option_map};
ghost use Rattle.edit_script.specs.Words.{words};
ghost use Rattle.network_names.specs.Names.{stands_for};
ghost use Rattle.study_arguments.specs.Arguments.{argument, four_of, if_given, one_of, one_or_two_of, optional_of, optional_word, six_of, three_of, three_or_four_of, three_words, two_of, two_or_three_of};
ghost use Rattle.study_arguments.specs.Fault.{Gives, Is};
ghost use Rattle.study_arguments.specs.Positions.{words_at};

use crate::argument::{Argument, value_of};
use crate::fault::{Fault, FaultKind};
use crate::position::{Position, end, first_word};
use edit_script::ScriptFault;
use network_names::Names;
use std::alloc::Allocator;

/// The first of the arguments of a command word, and the text after it; else S3 for the command
/// word.
fn argument<'a>(word: &'a [u8], arguments: &'a [u8]) -> Result<Position<'a>, Fault<'a>>
    ensures { Gives words_at result (argument word.now (words arguments.now)) }
{
    match first_word(arguments) {
        Some(first) => Ok(first),
        None => Err(Fault {
            kind: FaultKind::Script(ScriptFault::MissingWord),
            word,
        }),
    }
}

/// The first three of the arguments of a command word; else S3 for the command word.
fn three_words<'a>(
    word: &'a [u8],
    arguments: &'a [u8],
) -> Result<(Position<'a>, Position<'a>, Position<'a>), Fault<'a>>
    ensures { Gives (λ x. (words_at x.0, words_at x.1, words_at x.2)) result
        (three_words word.now (words arguments.now)) }
{
    let first = argument(word, arguments)?;
    let second = argument(word, first.rest)?;
    let third = argument(word, second.rest)?;
    Ok((first, second, third))
}

/// The only argument of a command.
///
/// # Errors
///
/// S3 for the command word where there are too few; S4 for the first word that is too many; the
/// fault of the argument.
#[tactic(auto, unfolding(crate::specs::Arguments::one_of))]
pub fn one<'a, T: Argument, A: Allocator + Copy>(
    names: &Names<'_, A>,
    line: Position<'a>,
) -> Result<T, Fault<'a>>
    ensures { Is result (one_of (T.means (stands_for names.now)) (words_at line.entry)) }
{
    let first = argument(line.word, line.rest)?;
    end(first)?;
    value_of(names, first.word)
}

/// The two arguments of a command.
///
/// # Errors
///
/// Those of [`one`], in the order of the arguments.
#[tactic(auto, unfolding(crate::specs::Arguments::two_of))]
pub fn two<'a, T: Argument, U: Argument, A: Allocator + Copy>(
    names: &Names<'_, A>,
    line: Position<'a>,
) -> Result<(T, U), Fault<'a>>
    ensures { Is result (two_of (T.means (stands_for names.now)) (U.means (stands_for names.now))
        (words_at line.entry)) }
{
    let first = argument(line.word, line.rest)?;
    let second = argument(line.word, first.rest)?;
    end(second)?;
    let first = value_of(names, first.word)?;
    let second = value_of(names, second.word)?;
    Ok((first, second))
}

/// The three arguments of a command.
///
/// # Errors
///
/// Those of [`one`], in the order of the arguments.
#[tactic(auto, unfolding(crate::specs::Arguments::three_of))]
pub fn three<'a, T: Argument, U: Argument, V: Argument, A: Allocator + Copy>(
    names: &Names<'_, A>,
    line: Position<'a>,
) -> Result<(T, U, V), Fault<'a>>
    ensures { Is result (three_of (T.means (stands_for names.now)) (U.means (stands_for names.now))
        (V.means (stands_for names.now)) (words_at line.entry)) }
{
    let (first, second, third) = three_words(line.word, line.rest)?;
    end(third)?;
    let first = value_of(names, first.word)?;
    let second = value_of(names, second.word)?;
    let third = value_of(names, third.word)?;
    Ok((first, second, third))
}

/// The four arguments of a command.
///
/// # Errors
///
/// Those of [`one`], in the order of the arguments.
#[tactic(auto, unfolding(crate::specs::Arguments::four_of))]
pub fn four<'a, T: Argument, U: Argument, V: Argument, W: Argument, A: Allocator + Copy>(
    names: &Names<'_, A>,
    line: Position<'a>,
) -> Result<(T, U, V, W), Fault<'a>>
    ensures { Is result (four_of (T.means (stands_for names.now)) (U.means (stands_for names.now))
        (V.means (stands_for names.now)) (W.means (stands_for names.now)) (words_at line.entry)) }
{
    let (first, second, third) = three_words(line.word, line.rest)?;
    let fourth = argument(line.word, third.rest)?;
    end(fourth)?;
    let first = value_of(names, first.word)?;
    let second = value_of(names, second.word)?;
    let third = value_of(names, third.word)?;
    let fourth = value_of(names, fourth.word)?;
    Ok((first, second, third, fourth))
}

/// The six arguments of a command.
///
/// # Errors
///
/// Those of [`one`], in the order of the arguments.
#[tactic(auto, unfolding(crate::specs::Arguments::six_of))]
pub fn six<
    'a,
    T: Argument,
    U: Argument,
    V: Argument,
    W: Argument,
    X: Argument,
    Y: Argument,
    A: Allocator + Copy,
>(names: &Names<'_, A>, line: Position<'a>) -> Result<(T, U, V, W, X, Y), Fault<'a>>
    ensures { Is result (six_of (T.means (stands_for names.now)) (U.means (stands_for names.now))
        (V.means (stands_for names.now)) (W.means (stands_for names.now))
        (X.means (stands_for names.now)) (Y.means (stands_for names.now)) (words_at line.entry)) }
{
    let (first, second, third) = three_words(line.word, line.rest)?;
    let (fourth, fifth, sixth) = three_words(line.word, third.rest)?;
    end(sixth)?;
    let first = value_of(names, first.word)?;
    let second = value_of(names, second.word)?;
    let third = value_of(names, third.word)?;
    let fourth = value_of(names, fourth.word)?;
    let fifth = value_of(names, fifth.word)?;
    let sixth = value_of(names, sixth.word)?;
    Ok((first, second, third, fourth, fifth, sixth))
}

/// The word of a command's argument, if there is one; else S4 for a second word.
fn optional_word<'a>(line: Position<'a>) -> Result<Option<&'a [u8]>, Fault<'a>>
    ensures { Gives (λ x. option_map (λ word. word.now) x) result
        (optional_word (words_at line.entry)) }
{
    let Some(first) = first_word(line.rest) else {
        return Ok(None);
    };
    match first_word(first.rest) {
        None => Ok(Some(first.word)),
        Some(extra) => Err(Fault {
            kind: FaultKind::Script(ScriptFault::ExtraWord),
            word: extra.word,
        }),
    }
}

/// What a word means, if there is one; else its fault.
fn if_given<'a, T: Argument, A: Allocator + Copy>(
    names: &Names<'_, A>,
    word: Option<&'a [u8]>,
) -> Result<Option<T>, Fault<'a>>
    ensures { Is result (if_given (T.means (stands_for names.now))
        (option_map (λ word. word.now) word.entry)) }
{
    let Some(word) = word else {
        return Ok(None);
    };
    let value = value_of(names, word)?;
    Ok(Some(value))
}

/// The argument of a command, which may be left out.
///
/// # Errors
///
/// S4 for a second word; the fault of the argument.
#[tactic(auto, unfolding(crate::specs::Arguments::optional_of))]
pub fn optional<'a, T: Argument, A: Allocator + Copy>(
    names: &Names<'_, A>,
    line: Position<'a>,
) -> Result<Option<T>, Fault<'a>>
    ensures { Is result (optional_of (T.means (stands_for names.now)) (words_at line.entry)) }
{
    let word = optional_word(line)?;
    if_given(names, word)
}

/// The argument of a command, and a second one, which may be left out.
///
/// # Errors
///
/// S3 for the command word where there is no argument; S4 for a third word; the faults of the
/// arguments.
#[tactic(auto, unfolding(crate::specs::Arguments::one_or_two_of))]
pub fn one_or_two<'a, T: Argument, U: Argument, A: Allocator + Copy>(
    names: &Names<'_, A>,
    line: Position<'a>,
) -> Result<(T, Option<U>), Fault<'a>>
    ensures { Is result (one_or_two_of (T.means (stands_for names.now))
        (U.means (stands_for names.now)) (words_at line.entry)) }
{
    let first = argument(line.word, line.rest)?;
    let second = optional_word(first)?;
    let first = value_of(names, first.word)?;
    let second = if_given(names, second)?;
    Ok((first, second))
}

/// The two arguments of a command, and a third one, which may be left out.
///
/// # Errors
///
/// S3 for the command word where there are fewer than two; S4 for a fourth word; the faults of the
/// arguments.
#[tactic(auto, unfolding(crate::specs::Arguments::two_or_three_of))]
pub fn two_or_three<'a, T: Argument, U: Argument, V: Argument, A: Allocator + Copy>(
    names: &Names<'_, A>,
    line: Position<'a>,
) -> Result<(T, U, Option<V>), Fault<'a>>
    ensures { Is result (two_or_three_of (T.means (stands_for names.now))
        (U.means (stands_for names.now)) (V.means (stands_for names.now)) (words_at line.entry)) }
{
    let first = argument(line.word, line.rest)?;
    let second = argument(line.word, first.rest)?;
    let third = optional_word(second)?;
    let first = value_of(names, first.word)?;
    let second = value_of(names, second.word)?;
    let third = if_given(names, third)?;
    Ok((first, second, third))
}

/// The three arguments of a command, and a fourth one, which may be left out.
///
/// # Errors
///
/// S3 for the command word where there are fewer than three; S4 for a fifth word; the faults of the
/// arguments.
#[tactic(auto, unfolding(crate::specs::Arguments::three_or_four_of))]
pub fn three_or_four<'a, T: Argument, U: Argument, V: Argument, W: Argument, A: Allocator + Copy>(
    names: &Names<'_, A>,
    line: Position<'a>,
) -> Result<(T, U, V, Option<W>), Fault<'a>>
    ensures { Is result (three_or_four_of (T.means (stands_for names.now))
        (U.means (stands_for names.now)) (V.means (stands_for names.now))
        (W.means (stands_for names.now)) (words_at line.entry)) }
{
    let (first, second, third) = three_words(line.word, line.rest)?;
    let fourth = optional_word(third)?;
    let first = value_of(names, first.word)?;
    let second = value_of(names, second.word)?;
    let third = value_of(names, third.word)?;
    let fourth = if_given(names, fourth)?;
    Ok((first, second, third, fourth))
}

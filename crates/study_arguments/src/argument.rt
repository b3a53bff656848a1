//! What one word means as an argument.

ghost use Rattle.std.specs.Prelude.{◌≡◌};
ghost use Rattle.network_names.specs.Names.{stands_for};
ghost use Rattle.study_arguments.specs.Arguments.{next_as, read_at};
ghost use Rattle.study_arguments.specs.Fault.{Gives, Is};
ghost use Rattle.study_arguments.specs.Positions.{words_at};

use crate::fault::{Fault, FaultKind};
use crate::position::{Position, next};
use network_names::Names;
use std::alloc::Allocator;

/// What one word of a line may mean: a number, an address, a prefix, a link or a word of the
/// language.
pub trait Argument: Copy {
    ghost use Rattle.study_arguments.specs.Values.{Means};

    /// What words mean.
    ghost means: { Means Self };

    /// What a word means; else what is wrong with it.
    ///
    /// # Errors
    ///
    /// S5 to S7 and S9, by the kind of the argument.
    fn read<A: Allocator + Copy>(names: &Names<'_, A>, word: &[u8]) -> Result<Self, FaultKind>
        ensures { result ≡ means (stands_for names.now) word.now };
}

/// What a word means; else its fault.
pub(crate) fn value_of<'a, T: Argument, A: Allocator + Copy>(
    names: &Names<'_, A>,
    word: &'a [u8],
) -> Result<T, Fault<'a>>
    ensures { Is result (read_at (T.means (stands_for names.now)) word.now) }
{
    match T::read(names, word) {
        Ok(value) => Ok(value),
        Err(kind) => Err(Fault { kind, word }),
    }
}

/// What the next word means, and where the line goes on.
///
/// # Errors
///
/// S3 for the word that was read last, where the line ends; or the fault of the next word.
#[tactic(auto, unfolding(crate::specs::Arguments::next_as))]
pub fn next_as<'a, T: Argument, A: Allocator + Copy>(
    names: &Names<'_, A>,
    line: Position<'a>,
) -> Result<(T, Position<'a>), Fault<'a>>
    ensures { Gives (λ x. (x.0, words_at x.1)) result
        (next_as (T.means (stands_for names.now)) (words_at line.entry)) }
{
    let after = next(line)?;
    let value = value_of(names, after.word)?;
    Ok((value, after))
}

//! The condition about the walks of a packet.

ghost use Rattle.std.specs.Prelude.{◌≡◌};
ghost use Rattle.network_names.specs.Names.{stands_for};
ghost use Rattle.study_arguments.specs.Fault.{Gives};
ghost use Rattle.study_arguments.specs.Positions.{words_at};
ghost use Rattle.study_script.specs.Conditions.{passing_of, path_of};
ghost use Rattle.study_script.specs.Expected.{expected};

use crate::condition::{Condition, Passing};
use network_names::Names;
use std::alloc::Allocator;
use study_arguments::{Fault, Position, end, next, next_as};

/// `via ROUTER`, `avoids ROUTER` or `delivered`, and where the line goes on.
#[tactic(auto, unfolding(crate::specs::Conditions::passing_of))]
fn passing<'a, A: Allocator + Copy>(
    names: &Names<'_, A>,
    line: Position<'a>,
) -> Result<(Passing, Position<'a>), Fault<'a>>
    ensures { Gives (λ x. (x.0, words_at x.1)) result
        (passing_of (stands_for names.now) (words_at line.entry)) }
{
    let first = next(line)?;
    let word = first.word;
    if word == b"via".as_slice() {
        let (other, after) = next_as(names, first)?;
        Ok((Passing::Via(other), after))
    } else if word == b"avoids".as_slice() {
        let (other, after) = next_as(names, first)?;
        Ok((Passing::Avoids(other), after))
    } else if word == b"delivered".as_slice() {
        Ok((Passing::Delivered, first))
    } else {
        Err(Fault::bad_word(word))
    }
}

/// `path ROUTER ADDRESS via ROUTER`, `avoids ROUTER` or `delivered`.
#[tactic(auto, unfolding(crate::specs::Conditions::path_of))]
pub(crate) fn path<'a, A: Allocator + Copy>(
    names: &Names<'_, A>,
    line: Position<'a>,
) -> Result<Condition<A>, Fault<'a>>
    ensures { Gives expected result (path_of (stands_for names.now) (words_at line.entry)) }
{
    let (router, after) = next_as(names, line)?;
    let (address, after) = next_as(names, after)?;
    let (passing, after) = passing(names, after)?;
    end(after)?;
    Ok(Condition::Path {
        router,
        address,
        passing,
    })
}

//! Conditions about the route of a router for a prefix.

ghost use Rattle.std.specs.Prelude.{◌≡◌, option_map};
ghost use Rattle.network_names.specs.Names.{stands_for};
ghost use Rattle.study_arguments.specs.Fault.{Gives, Is, Reads};
ghost use Rattle.study_arguments.specs.Positions.{words_at};
ghost use Rattle.study_script.specs.Conditions.{bound_of, cost_part, entry_of, hops_of, kind_part, no_route_of, route_of, via_part};
ghost use Rattle.study_script.specs.Expected.{expected};

use crate::condition::{Bound, Condition};
use lsa_codec::{Prefix, RouterId};
use network_names::Names;
use std::alloc::Allocator;
use study_arguments::{Fault, ParseError, Position, end, first_word, neighbors, next, next_as};
use study_words::{RouteKind, Word};

// ---- parts, some of which may be left out

/// `ROUTER PREFIX`, which name an entry of a table, and where the line goes on.
#[tactic(auto, unfolding(crate::specs::Conditions::entry_of))]
fn entry<'a, A: Allocator + Copy>(
    names: &Names<'_, A>,
    line: Position<'a>,
) -> Result<(RouterId, Prefix, Position<'a>), Fault<'a>>
    ensures { Gives (λ x. (x.0, x.1, words_at x.2)) result
        (entry_of (stands_for names.now) (words_at line.entry)) }
{
    let (router, after) = next_as(names, line)?;
    // The prover has no rule for `?` where a result has a prefix and a reference, here and below.
    match next_as(names, after) {
        Ok((prefix, after)) => Ok((router, prefix, after)),
        Err(fault) => Err(fault),
    }
}

/// `OP NUMBER`, and where the line goes on.
#[tactic(auto, unfolding(crate::specs::Conditions::bound_of))]
fn bound<'a, A: Allocator + Copy>(
    names: &Names<'_, A>,
    line: Position<'a>,
) -> Result<(Bound, Position<'a>), Fault<'a>>
    ensures { Gives (λ x. (x.0, words_at x.1)) result
        (bound_of (stands_for names.now) (words_at line.entry)) }
{
    let (comparison, after) = next_as(names, line)?;
    let (number, after) = next_as(names, after)?;
    Ok((Bound { comparison, number }, after))
}

/// `[KIND]`, and where the line goes on.
#[tactic(auto, unfolding(crate::specs::Conditions::kind_part))]
fn kind_part<'a>(line: Position<'a>) -> (Option<RouteKind>, Position<'a>)
    ensures { (result.0, words_at result.1) ≡ kind_part (words_at line.entry) }
{
    let Some(after) = first_word(line.rest) else {
        return (None, line);
    };
    match RouteKind::of(after.word) {
        Some(kind) => (Some(kind), after),
        None => (None, line),
    }
}

/// `[via NEIGHBOR,..]`, and where the line goes on.
#[tactic(auto, unfolding(crate::specs::Conditions::via_part))]
fn via_part<'a, A: Allocator + Copy>(
    alloc: A,
    names: &Names<'_, A>,
    line: Position<'a>,
) -> Result<(Option<Vec<RouterId, A>>, Position<'a>), ParseError<'a>>
    ensures { Reads (λ x. (option_map (λ routers. routers.items) x.0, words_at x.1)) result
        (via_part (stands_for names.now) (words_at line.entry)) }
{
    let Some(via) = first_word(line.rest) else {
        return Ok((None, line));
    };
    if via.word != b"via".as_slice() {
        return Ok((None, line));
    }
    let after = next(via)?;
    let routers = neighbors(alloc, names, after.word)?;
    Ok((Some(routers), after))
}

/// `[cost OP NUMBER]`, and the end of the line.
#[tactic(auto, unfolding(crate::specs::Conditions::cost_part))]
fn cost_part<'a, A: Allocator + Copy>(
    names: &Names<'_, A>,
    line: Position<'a>,
) -> Result<Option<Bound>, Fault<'a>>
    ensures { Is result (cost_part (stands_for names.now) (words_at line.entry)) }
{
    let Some(first) = first_word(line.rest) else {
        return Ok(None);
    };
    let word = first.word;
    if word != b"cost".as_slice() {
        return Err(Fault::bad_word(word));
    }
    let (cost, last) = bound(names, first)?;
    end(last)?;
    Ok(Some(cost))
}

// ---- conditions

/// `route ROUTER PREFIX [KIND] [via NEIGHBOR,..] [cost OP NUMBER]`.
#[tactic(auto, unfolding(crate::specs::Conditions::route_of))]
pub(crate) fn route<'a, A: Allocator + Copy>(
    alloc: A,
    names: &Names<'_, A>,
    line: Position<'a>,
) -> Result<Condition<A>, ParseError<'a>>
    ensures { Reads expected result (route_of (stands_for names.now) (words_at line.entry)) }
{
    let (router, prefix, after) = match entry(names, line) {
        Ok(entry) => entry,
        Err(fault) => return Err(ParseError::Fault(fault)),
    };
    let (kind, after) = kind_part(after);
    let (via, after) = via_part(alloc, names, after)?;
    let cost = cost_part(names, after)?;
    Ok(Condition::Route {
        router,
        prefix,
        kind,
        via,
        cost,
    })
}

/// `no-route ROUTER PREFIX`.
#[tactic(auto, unfolding(crate::specs::Conditions::no_route_of))]
pub(crate) fn no_route<'a, A: Allocator + Copy>(
    names: &Names<'_, A>,
    line: Position<'a>,
) -> Result<Condition<A>, Fault<'a>>
    ensures { Gives expected result (no_route_of (stands_for names.now) (words_at line.entry)) }
{
    match entry(names, line) {
        Ok((router, prefix, after)) => {
            end(after)?;
            Ok(Condition::NoRoute { router, prefix })
        }
        Err(fault) => Err(fault),
    }
}

/// `hops ROUTER PREFIX OP NUMBER`.
#[tactic(auto, unfolding(crate::specs::Conditions::hops_of))]
pub(crate) fn hops<'a, A: Allocator + Copy>(
    names: &Names<'_, A>,
    line: Position<'a>,
) -> Result<Condition<A>, Fault<'a>>
    ensures { Gives expected result (hops_of (stands_for names.now) (words_at line.entry)) }
{
    let (router, prefix, after) = match entry(names, line) {
        Ok(entry) => entry,
        Err(fault) => return Err(fault),
    };
    let (bound, after) = bound(names, after)?;
    end(after)?;
    Ok(Condition::Hops {
        router,
        prefix,
        bound,
    })
}

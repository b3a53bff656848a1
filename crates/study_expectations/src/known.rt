//! Routers that conditions name.

ghost use Rattle.std.specs.Prelude.{◌≡◌, ◌||◌, IfOk, option_map};
ghost use Rattle.std.specs.List.{list_all};
ghost use Rattle.lsdb.specs.Slots.{lists_of};
ghost use Rattle.study_answers.specs.Known.{is_among};
ghost use Rattle.study_expectations.specs.Verdicts.{are_known, is_known_passing};

use lsa_codec::RouterId;
use lsdb::Database;
use routing_table::routers;
use std::alloc::{AllocError, Allocator};
use study_answers::{is_among, is_known};
use study_script::Passing;

/// Whether each of these routers is one of two lists.
fn are_among(now: &[RouterId], before: &[RouterId], those: &[RouterId]) -> bool
    ensures { result ≡ list_all (λ router. is_among now.now router || is_among before.now router)
        those.now }
{
    let mut those = those.iter();
    those.all(|router| is_among(now, *router) || is_among(before, *router))
}

/// Whether routers, if some are given, are attached in a database or in the baseline.
#[tactic(auto, unfolding(crate::specs::Verdicts::are_known, study_answers::specs::Known::is_attached))]
pub(crate) fn are_known<A: Allocator + Copy>(
    alloc: A,
    baseline: &Database<A>,
    database: &Database<A>,
    those: Option<&[RouterId]>,
) -> Result<bool, AllocError>
    ensures { IfOk result (λ known. known ≡ are_known (lists_of baseline.now)
        (lists_of database.now) (option_map (λ n. n.now) those.entry)) }
{
    match those {
        Some(those) => {
            let (now, before) = (routers(alloc, database)?, routers(alloc, baseline)?);
            Ok(are_among(&now, &before, those))
        }
        None => Ok(true),
    }
}

/// Whether the router that walks have to pass, or must not, is attached in a database or in the
/// baseline.
#[tactic(auto, unfolding(crate::specs::Verdicts::is_known_passing))]
pub(crate) fn is_known_passing<A: Allocator + Copy>(
    alloc: A,
    baseline: &Database<A>,
    database: &Database<A>,
    passing: Passing,
) -> Result<bool, AllocError>
    ensures { IfOk result (λ known. known
        ≡ is_known_passing (lists_of baseline.now) (lists_of database.now) passing) }
{
    match passing {
        Passing::Via(router) | Passing::Avoids(router) => {
            is_known(alloc, baseline, database, router)
        }
        Passing::Delivered => Ok(true),
    }
}

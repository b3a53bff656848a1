//! Routers that lines name.

ghost use Rattle.std.specs.Prelude.{◌≡◌, IfOk};
ghost use Rattle.lsdb.specs.Slots.{lists_of};
ghost use Rattle.study_answers.specs.Answers.{refused_answer};
ghost use Rattle.study_answers.specs.Known.{is_among, is_attached, is_known, no_router};

use crate::answer::Answer;
use lsa_codec::RouterId;
use lsdb::Database;
use routing_table::routers;
use std::alloc::{AllocError, Allocator};

/// Whether a router is one of some.
pub fn is_among(routers: &[RouterId], router: RouterId) -> bool
    ensures { result ≡ is_among routers.now router }
{
    routers.iter().any(|other| other.0 == router.0)
}

/// Whether a router is attached to an area of a database.
///
/// # Errors
///
/// Memory ran out.
#[tactic(auto, unfolding(crate::specs::Known::is_attached))]
pub fn is_attached<A: Allocator + Copy>(
    alloc: A,
    database: &Database<A>,
    router: RouterId,
) -> Result<bool, AllocError>
    ensures { IfOk result (λ known. known ≡ is_attached (lists_of database.now) router) }
{
    Ok(is_among(&routers(alloc, database)?, router))
}

/// The answer to a line that names a router which is not attached.
///
/// # Errors
///
/// Memory ran out.
pub fn no_router<A: Allocator + Copy>(alloc: A, branch: u8) -> Result<Answer<A>, AllocError>
    ensures { IfOk result (λ answer. answer ≡ refused_answer branch no_router) }
{
    Answer::refused(alloc, branch, "N1", "NoRouter")
}

/// Whether a router is attached in a database or in the baseline.
///
/// # Errors
///
/// Memory ran out.
pub fn is_known<A: Allocator + Copy>(
    alloc: A,
    baseline: &Database<A>,
    database: &Database<A>,
    router: RouterId,
) -> Result<bool, AllocError>
    ensures { IfOk result
        (λ known. known ≡ is_known (lists_of baseline.now) (lists_of database.now) router) }
{
    Ok(is_attached(alloc, database, router)? || is_attached(alloc, baseline, router)?)
}

//! Areas that lines name.

ghost use Rattle.std.specs.Prelude.{◌≡◌, IfOk};
ghost use Rattle.lsdb.specs.Slots.{lists_of};
ghost use Rattle.study_answers.specs.Answers.{refused_answer};
ghost use Rattle.study_answers.specs.Areas.{has_area, has_limit, is_area_among, no_area};

use crate::answer::Answer;
use link_report::area_ids;
use lsa_codec::AreaId;
use lsdb::Database;
use std::alloc::{AllocError, Allocator};

/// Whether an area is one of some.
fn is_area_among(areas: &[AreaId], area: AreaId) -> bool
    ensures { result ≡ is_area_among areas.now area }
{
    areas.iter().any(|other| other.0 == area.0)
}

/// Whether a database has an area.
#[tactic(auto, unfolding(crate::specs::Areas::has_area))]
fn has_area<A: Allocator + Copy>(
    alloc: A,
    database: &Database<A>,
    area: AreaId,
) -> Result<bool, AllocError>
    ensures { IfOk result (λ known. known ≡ has_area (lists_of database.now) area) }
{
    Ok(is_area_among(&area_ids(alloc, database)?, area))
}

/// Whether a database has the area that a question is limited to, if it is.
///
/// # Errors
///
/// Memory ran out.
pub fn has_limit<A: Allocator + Copy>(
    alloc: A,
    database: &Database<A>,
    within: Option<AreaId>,
) -> Result<bool, AllocError>
    ensures { IfOk result (λ known. known ≡ has_limit (lists_of database.now) within) }
{
    match within {
        Some(area) => has_area(alloc, database, area),
        None => Ok(true),
    }
}

/// The answer to a line that names an area which is not there.
///
/// # Errors
///
/// Memory ran out.
pub fn no_area<A: Allocator + Copy>(alloc: A, branch: u8) -> Result<Answer<A>, AllocError>
    ensures { IfOk result (λ answer. answer ≡ refused_answer branch no_area) }
{
    Answer::refused(alloc, branch, "E1", "NoArea")
}

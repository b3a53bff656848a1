//! Documents about loops.
#![tactic(auto, unfolding(crate::specs::LoopDocuments::IsLoopsDocument, crate::specs::LoopDocuments::IsMicroloopsDocument))]

ghost use Rattle.std.specs.Prelude.{◌<◌, ◌≡◌, IfOk, option_map};
ghost use Rattle.lsdb.specs.Slots.{lists_of};
ghost use Rattle.edit_history.specs.Session.{state};
ghost use Rattle.branches.specs.Branches.{before_last, sessions_of};
ghost use Rattle.study_answers.specs.Known.{count_or_one};
ghost use Rattle.document_answers.specs.Documented.{documented};
ghost use Rattle.document_answers.specs.LoopDocuments.{IsLoopsDocument, IsMicroloopsBy, IsMicroloopsDocument};

use crate::documented::Documented;
use branches::Branches;
use loop_report::{LoopReport, PrefixLoop};
use lsdb::Database;
use spf::Meter;
use std::alloc::{AllocError, Allocator};
use study_answers::microloops_of;
use study_documents::{push_loops, push_microloops};

/// The document of `loops`.
pub(crate) fn loops_document<A: Allocator + Copy>(
    alloc: A,
    baseline: &Database<A>,
    database: &Database<A>,
) -> Result<Documented<A>, AllocError>
    ensures { IfOk result (λ given. IsLoopsDocument (lists_of baseline.now)
        (lists_of database.now) (documented given)) }
{
    let report = LoopReport::between(alloc, baseline, database, &mut Meter::new())?;
    let mut text = Vec::new(alloc);
    push_loops(&mut text, &report)?;
    Ok(Documented::Members(text))
}

/// The document of `microloops`, by what may loop; there is nothing where fewer edits are done.
fn microloops_by<A: Allocator + Copy>(
    alloc: A,
    count: u32,
    loops: Option<Vec<PrefixLoop<A>, A>>,
) -> Result<Documented<A>, AllocError>
    ensures { IfOk result (λ given. IsMicroloopsBy count
        (option_map (λ found. found.items) loops) (documented given)) }
{
    match loops {
        Some(loops) => {
            let mut text = Vec::new(alloc);
            push_microloops(&mut text, count, &loops)?;
            Ok(Documented::Members(text))
        }
        None => Ok(Documented::TooFewDone),
    }
}

/// The document of `microloops`, with the number of edits that the line names. All sessions stay.
pub(crate) fn microloops_document<A: Allocator + Copy>(
    alloc: A,
    branches: &mut Branches<A>,
    branch: u8,
    count: Option<u32>,
) -> Result<Documented<A>, AllocError>
    requires { branch < 8 }
    ensures document { IfOk result (λ given. IsMicroloopsDocument
        (state (sessions_of branches.old branch)) (count_or_one count)
        (before_last (count_or_one count) (sessions_of branches.old branch))
        (documented given)) }
    ensures kept { sessions_of branches.new ≡ sessions_of branches.old }
{
    let count = count.unwrap_or(1);
    let loops = microloops_of(alloc, branches, branch, count)?;
    microloops_by(alloc, count, loops)
}

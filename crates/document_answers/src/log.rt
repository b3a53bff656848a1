//! The document of the edits that are done.

ghost use Rattle.std.specs.Prelude.{◌≡◌, IfOk, map};
ghost use Rattle.std.specs.String.{string_bytes};
ghost use Rattle.edit_history.specs.Session.{edits_of};
ghost use Rattle.edit_script.specs.Spelling.{spelling};
ghost use Rattle.document_answers.specs.Documented.{documented};
ghost use Rattle.document_answers.specs.OwnDocuments.{IsLogDocument};

use crate::documented::Documented;
use edit_history::Record;
use edit_script::print;
use recalculate::Planner;
use std::alloc::{AllocError, Allocator};
use study_documents::push_listing;
use study_questions::done_records;

/// The edits of records, each as it is spelled.
fn spellings<A: Allocator + Copy>(
    alloc: A,
    records: &[Record<A>],
) -> Result<Vec<String<A>, A>, AllocError>
    ensures { IfOk result
        (λ lines. map (string_bytes) lines.items ≡ map spelling (edits_of records.now)) }
{
    let mut lines = Vec::new(alloc);
    for record in records {
        lines.push(print(alloc, &record.edit())?)?;
    }
    Ok(lines)
}

/// The document of `log`.
#[tactic(auto, unfolding(crate::specs::OwnDocuments::IsLogDocument))]
pub(crate) fn log_document<A: Allocator + Copy>(
    alloc: A,
    planner: &Planner<A>,
) -> Result<Documented<A>, AllocError>
    ensures { IfOk result (λ given. IsLogDocument planner.now.session.done (documented given)) }
{
    let lines = spellings(alloc, done_records(planner))?;
    let mut text = Vec::new(alloc);
    push_listing(&mut text, "lines", &lines)?;
    Ok(Documented::Members(text))
}

//! The document about why a route is what it is.
#![tactic(auto, unfolding(crate::specs::ExplainDocuments::IsExplainDocument))]

ghost use Rattle.std.specs.Prelude.{IfOk};
ghost use Rattle.lsdb.specs.Slots.{lists_of};
ghost use Rattle.document_answers.specs.Documented.{documented};
ghost use Rattle.document_answers.specs.ExplainDocuments.{IsExplainDocument};

use crate::documented::Documented;
use explanation_json::push_explanation;
use lsa_codec::{Prefix, RouterId};
use lsdb::Database;
use std::alloc::{AllocError, Allocator};
use study_answers::is_attached;
use study_questions::explained;

/// The document of `explain`.
pub(crate) fn explain_document<A: Allocator + Copy>(
    alloc: A,
    database: &Database<A>,
    place: (RouterId, Prefix),
) -> Result<Documented<A>, AllocError>
    ensures { IfOk result (λ given. IsExplainDocument (lists_of database.now) place.0 place.1
        (documented given)) }
{
    let (router, net) = place;
    if !is_attached(alloc, database, router)? {
        return Ok(Documented::NoRouter);
    }
    let explanation = explained(alloc, database, router, net)?;
    let mut text = Vec::new(alloc);
    push_explanation(&mut text, place, &explanation)?;
    Ok(Documented::Members(text))
}

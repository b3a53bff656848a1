//! Documents about routes and paths.
#![tactic(auto, unfolding(crate::specs::RouteDocuments::IsRoutesDocument, crate::specs::RouteDocuments::IsPathDocument))]

ghost use Rattle.std.specs.Prelude.{IfOk};
ghost use Rattle.lsdb.specs.Slots.{lists_of};
ghost use Rattle.document_answers.specs.Documented.{documented};
ghost use Rattle.document_answers.specs.RouteDocuments.{IsPathDocument, IsRoutesDocument};

use crate::documented::Documented;
use lsa_codec::{Addr, RouterId};
use lsdb::Database;
use route_report::{path_of, routes_of};
use spf::Meter;
use std::alloc::{AllocError, Allocator};
use study_answers::is_attached;
use study_documents::{push_path, push_routes};

/// The document of `routes`.
pub(crate) fn routes_document<A: Allocator + Copy>(
    alloc: A,
    database: &Database<A>,
    place: (RouterId, Option<Addr>),
) -> Result<Documented<A>, AllocError>
    ensures { IfOk result (λ given. IsRoutesDocument (lists_of database.now) place.0 place.1
        (documented given)) }
{
    let (router, address) = place;
    if !is_attached(alloc, database, router)? {
        return Ok(Documented::NoRouter);
    }
    let lines = routes_of(alloc, database, router, address, &mut Meter::new())?;
    let mut text = Vec::new(alloc);
    push_routes(&mut text, place, &lines)?;
    Ok(Documented::Members(text))
}

/// The document of `path`.
pub(crate) fn path_document<A: Allocator + Copy>(
    alloc: A,
    database: &Database<A>,
    place: (RouterId, Addr),
) -> Result<Documented<A>, AllocError>
    ensures { IfOk result (λ given. IsPathDocument (lists_of database.now) place.0 place.1
        (documented given)) }
{
    let (router, address) = place;
    if !is_attached(alloc, database, router)? {
        return Ok(Documented::NoRouter);
    }
    let path = path_of(alloc, database, router, address, &mut Meter::new())?;
    let mut text = Vec::new(alloc);
    push_path(&mut text, place, &path)?;
    Ok(Documented::Members(text))
}

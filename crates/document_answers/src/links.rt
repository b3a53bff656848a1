//! Documents about routers, links and networks.
#![tactic(auto, unfolding(crate::specs::LinkDocuments::IsRoutersDocument, crate::specs::LinkDocuments::IsNetworksDocument, crate::specs::LinkDocuments::IsLinksDocument))]

ghost use Rattle.std.specs.Prelude.{◌≡◌, ◌++◌, IfOk, OnOk, map};
ghost use Rattle.network_names.specs.Names.{called};
ghost use Rattle.lsdb.specs.Slots.{lists_of};
ghost use Rattle.study_json.specs.Fields.{HaveNumbers, more_text};
ghost use Rattle.document_answers.specs.Documented.{documented};
ghost use Rattle.document_answers.specs.LinkDocuments.{IsLinksDocument, IsNetworksDocument, IsRoutersDocument, router_json_of, routers_reply};

use crate::documented::Documented;
use link_report::{RouterLine, link_lines, network_lines, router_lines};
use lsa_codec::RouterId;
use lsdb::Database;
use network_names::Names;
use routing_table::routers;
use std::alloc::{AllocError, Allocator};
use study_answers::is_attached;
use study_documents::push_listing;
use study_json::{Document, NamedRouter};

/// A router, and the names of routers.
#[derive(Clone, Copy)]
struct RouterAmong<'a, 'n, A: Allocator> {
    /// The router.
    line: &'a RouterLine<A>,
    /// The names.
    names: &'a Names<'n, A>,
}

impl<B: Allocator + Copy> Document for RouterAmong<'_, '_, B> {
    ghost use Rattle.network_names.specs.Names.{called};
    ghost use Rattle.document_answers.specs.LinkDocuments.{router_json_of};

    ghost json_as = { λ r. router_json_of (called r.names.now) r.line.now };

    fn push_json<A: Allocator + Copy>(&self, text: &mut Vec<u8, A>) -> Result<(), AllocError> {
        let line = self.line;
        let name = self.names.name_of(line.router);
        NamedRouter { line, name }.push_json(text)
    }
}

/// Routers, each with the names of routers.
fn named_routers<'r, 'n, A: Allocator + Copy>(
    alloc: A,
    names: &'r Names<'n, A>,
    lines: &'r [RouterLine<A>],
) -> Result<Vec<RouterAmong<'r, 'n, A>, A>, AllocError>
    ensures { IfOk result (λ routers.
        map (λ r. router_json_of (called r.names.now) r.line.now) routers.items
        ≡ map (router_json_of (called names.now)) lines.now) }
{
    let mut routers = Vec::new(alloc);
    for line in lines {
        routers.push(RouterAmong { line, names })?;
    }
    Ok(routers)
}

/// Adds the reply to `routers`.
fn push_routers<A: Allocator + Copy>(
    text: &mut Vec<u8, A>,
    names: &Names<'_, A>,
    lines: &[RouterLine<A>],
) -> Result<(), AllocError>
    ensures pushed { OnOk result (text.new.items
        ≡ text.old.items ++ more_text (routers_reply (called names.now) lines.now)) }
    ensures numbers { OnOk result (HaveNumbers (routers_reply (called names.now) lines.now)) }
{
    let routers = named_routers(*text.allocator(), names, lines)?;
    push_listing(text, "routers", &routers)
}

/// The document of `routers`.
pub(crate) fn routers_document<A: Allocator + Copy>(
    alloc: A,
    names: &Names<'_, A>,
    database: &Database<A>,
) -> Result<Documented<A>, AllocError>
    ensures { IfOk result (λ given. IsRoutersDocument (called names.now)
        (lists_of database.now) (documented given)) }
{
    let mut text = Vec::new(alloc);
    push_routers(&mut text, names, &router_lines(alloc, database)?)?;
    Ok(Documented::Members(text))
}

/// The document of `networks`.
pub(crate) fn networks_document<A: Allocator + Copy>(
    alloc: A,
    database: &Database<A>,
) -> Result<Documented<A>, AllocError>
    ensures { IfOk result
        (λ given. IsNetworksDocument (lists_of database.now) (documented given)) }
{
    let mut text = Vec::new(alloc);
    push_listing(&mut text, "networks", &network_lines(alloc, database)?)?;
    Ok(Documented::Members(text))
}

/// The document of `links`.
pub(crate) fn links_document<A: Allocator + Copy>(
    alloc: A,
    database: &Database<A>,
    router: Option<RouterId>,
) -> Result<Documented<A>, AllocError>
    ensures { IfOk result
        (λ given. IsLinksDocument (lists_of database.now) router (documented given)) }
{
    let lines = match router {
        Some(one) => {
            if !is_attached(alloc, database, one)? {
                return Ok(Documented::NoRouter);
            }
            link_lines(alloc, database, &[one])?
        }
        None => link_lines(alloc, database, &routers(alloc, database)?)?,
    };
    let mut text = Vec::new(alloc);
    push_listing(&mut text, "links", &lines)?;
    Ok(Documented::Members(text))
}

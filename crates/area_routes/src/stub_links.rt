//! The stub links of an area, in order of prefix.

ghost use Rattle.std.specs.Prelude.{◌≡◌, ◌++◌, [], IfOk, OnOk};
ghost use Rattle.std.specs.List.{cons_option};
ghost use Rattle.lsdb.specs.declared.section.Section.TheVariants.{Area};
ghost use Rattle.lsdb.specs.Lists.{lsas_of};
ghost use Rattle.lsdb.specs.Slots.{lists_of};
ghost use Rattle.area_routes.specs.StubLinks.{AreStubLinksOf, stub_link, stub_links_from, stub_links_of};

use area_graph::{VertexLsa, used_lsas};
use lsa_codec::{AreaId, Link, Lsa, Prefix, RouterId};
use lsdb::{Database, Section};
use std::alloc::{AllocError, Allocator, Global};
use std::marker::Model;

/// A stub link of a router (RFC 2328, A.4.2).
#[derive(Clone, Copy, Debug)]
pub struct StubLink {
    /// The prefix of the stub network.
    pub(crate) net: Prefix,
    /// The metric of the link.
    pub(crate) metric: u16,
    /// The number of the router's vertex in the graph of the area.
    pub(crate) vertex: usize,
    /// The router.
    pub(crate) router: RouterId,
}

/// The stub links of an area's routers. Contracts see them as a list.
///
/// They are kept in order of prefix, so that the offers of a tree over them come in this order,
/// too, and are quickly sorted. That is for speed alone, and no contract states it. Each takes 24
/// bytes.
#[derive(Drop)]
pub struct StubLinks<A: Allocator = Global> {
    links: Vec<StubLink, A>,
}

impl<A: Allocator> Model for StubLinks<A> {
    ghost use Rattle.std.specs.Prelude.{List};
    ghost use Rattle.area_routes.specs.declared.stub_links.StubLink.{StubLink};

    ghost Value = { List StubLink };

    ghost view = { λ s. s.links.items };
}

impl<A: Allocator + Copy> StubLinks<A> {
    /// The stub links of the routers of an area; none where the database lacks the area.
    ///
    /// # Errors
    ///
    /// Memory ran out.
    pub fn of(alloc: A, database: &Database<A>, area: AreaId) -> Result<StubLinks<A>, AllocError>
        ensures { IfOk result (AreStubLinksOf (lsas_of (Area area) (lists_of database.now))) }
    {
        let lsas = used_lsas(alloc, database.lsas(Section::Area(area)))?;
        let mut links = stub_links(alloc, &lsas)?;
        links.sort_by_key(|link| link.net)?;
        Ok(StubLinks { links })
    }

    /// The stub links.
    pub(crate) fn as_slice(&self) -> &[StubLink]
        ensures { result.now ≡ self.now }
    {
        self.links.as_slice()
    }
}

/// Adds a link, if it is a stub link.
fn push_stub_link<A: Allocator + Copy>(
    links: &mut Vec<StubLink, A>,
    vertex: usize,
    lsa: &Lsa<A>,
    link: Link,
) -> Result<(), AllocError>
    ensures { OnOk result
        (links.new.items ≡ links.old.items ++ cons_option (stub_link vertex lsa.now link) []) }
{
    let Some(net) = link.net() else {
        return Ok(());
    };
    links.push(StubLink {
        net,
        metric: link.metric,
        vertex,
        router: RouterId(lsa.key().id.0),
    })?;
    Ok(())
}

/// Adds the stub links of the LSA of a vertex, which only routers have.
fn push_stub_links<A: Allocator + Copy>(
    links: &mut Vec<StubLink, A>,
    vertex: usize,
    lsa: &Lsa<A>,
) -> Result<(), AllocError>
    ensures { OnOk result (links.new.items ≡ links.old.items ++ stub_links_of vertex lsa.now) }
{
    let Some(router) = lsa.router() else {
        return Ok(());
    };
    for link in router.links() {
        push_stub_link(links, vertex, lsa, link)?;
    }
    Ok(())
}

/// The stub links of the LSAs of an area's vertices, in their order.
fn stub_links<A: Allocator + Copy>(
    alloc: A,
    lsas: &[VertexLsa<'_, A>],
) -> Result<Vec<StubLink, A>, AllocError>
    ensures { IfOk result (λ links. links.items ≡ stub_links_from 0 lsas.now) }
{
    let mut links = Vec::new(alloc);
    for vertex in 0..lsas.len() {
        push_stub_links(&mut links, vertex, lsas[vertex].lsa())?;
    }
    Ok(links)
}

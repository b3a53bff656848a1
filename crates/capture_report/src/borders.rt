//! Routers of several areas, or of several ASes, and what a database lacks of these.

ghost use Rattle.std.specs.Prelude.{◌≡◌, IfOk};
ghost use Rattle.std.specs.Ordering.{nat_cmp};
ghost use Rattle.std.specs.List.{filter_map};
ghost use Rattle.lsdb.specs.Slots.{lists_of};
ghost use Rattle.capture_report.specs.Borders.{AreBorderFindings, absent_backbone, backbone_lsas, counts_in, has_backbone, passes, router_that_passes, routers_in, routers_that_pass};
ghost use Rattle.capture_report.specs.Naming.{router_described};
ghost use Rattle.capture_report.specs.Sets.{AreMissing, AreShared};

use crate::areas::areas_in;
use crate::each::put_each;
use crate::naming::{Node, described};
use crate::sets::{missing, shared};
use findings::Finding;
use lsa_codec::{AreaId, Lsa, RouterId, RouterView};
use lsdb::{Database, Lsas, Section};
use std::alloc::{AllocError, Allocator};

/// Bit B of a router-LSA, of an area border router (RFC 2328, A.4.2).
const BIT_B: u8 = 1;

/// Bit E of a router-LSA, of an AS boundary router.
const BIT_E: u8 = 2;

/// A test of router-LSAs, and the areas in which it counts.
#[derive(Clone, Copy)]
pub(crate) enum RouterTest {
    /// Bit B, in any area.
    BorderOfAreas,
    /// Bit E, in an area that is no stub area.
    BorderOfAs,
    /// No links, in the backbone.
    UnlinkedInBackbone,
    /// Links, in another area than the backbone.
    LinkedElsewhere,
}

/// Whether a test counts in an area.
fn counts_in(test: RouterTest, area: AreaId, is_stub: bool) -> bool
    ensures { result ≡ counts_in test (record { id = area.0; is_stub = is_stub }) }
{
    match test {
        RouterTest::BorderOfAreas => true,
        RouterTest::BorderOfAs => !is_stub,
        RouterTest::UnlinkedInBackbone => area.0 == AreaId::BACKBONE.0,
        RouterTest::LinkedElsewhere => area.0 != AreaId::BACKBONE.0,
    }
}

/// Whether a router-LSA passes a test.
fn passes(test: RouterTest, router: &RouterView<'_>) -> bool
    ensures { result ≡ passes test router.now }
{
    match test {
        RouterTest::BorderOfAreas => router.flags() & BIT_B != 0,
        RouterTest::BorderOfAs => router.flags() & BIT_E != 0,
        RouterTest::UnlinkedInBackbone => router.link_count() == 0,
        RouterTest::LinkedElsewhere => router.link_count() != 0,
    }
}

/// The router of an LSA, if it is a live router-LSA that passes a test.
fn router_that_passes<A: Allocator + Copy>(test: RouterTest, lsa: &Lsa<A>) -> Option<u32>
    ensures { result ≡ router_that_passes test lsa.now }
{
    if lsa.at_max_age() {
        return None;
    }
    match lsa.router() {
        Some(router) if passes(test, &router) => Some(lsa.key().id.0),
        _ => None,
    }
}

/// The routers of LSAs that pass a test.
fn routers_of<A: Allocator + Copy>(
    alloc: A,
    test: RouterTest,
    lsas: Lsas<'_, A>,
) -> Result<Vec<u32, A>, AllocError>
    ensures { IfOk result (λ ids. ids.items ≡ filter_map (router_that_passes test) lsas.entry) }
{
    lsas.filter_map(|lsa| router_that_passes(test, lsa))
        .collect(alloc)
}

/// The routers of an area that pass a test, if it counts there.
fn routers_in<A: Allocator + Copy>(
    alloc: A,
    test: RouterTest,
    database: &Database<A>,
    area: AreaId,
    is_stub: bool,
) -> Result<Vec<u32, A>, AllocError>
    ensures { IfOk result (λ ids. ids.items
        ≡ routers_in test (lists_of database.now) (record { id = area.0; is_stub = is_stub })) }
{
    if !counts_in(test, area, is_stub) {
        return Ok(Vec::new(alloc));
    }
    routers_of(alloc, test, database.lsas(Section::Area(area)))
}

/// The routers that pass a test, area after area.
pub(crate) fn routers_that_pass<A: Allocator + Copy>(
    alloc: A,
    test: RouterTest,
    database: &Database<A>,
) -> Result<Vec<u32, A>, AllocError>
    ensures { IfOk result (λ ids. ids.items ≡ routers_that_pass test (lists_of database.now)) }
{
    let mut found = Vec::new(alloc);
    for i in 0..database.area_count() {
        let (area, is_stub) = database.area(i);
        found.append(&mut routers_in(alloc, test, database, area, is_stub)?)?;
    }
    Ok(found)
}

/// Whether a database has the backbone.
fn has_backbone<A: Allocator + Copy>(alloc: A, database: &Database<A>) -> Result<bool, AllocError>
    ensures { IfOk result (λ has. has ≡ has_backbone (lists_of database.now)) }
{
    let areas = areas_in(alloc, database)?;
    Ok(areas.iter().any(|id| id.0 == AreaId::BACKBONE.0))
}

/// The finding that the backbone is absent, where an area has an area border router.
fn absent_backbone<A: Allocator + Copy>(
    alloc: A,
    database: &Database<A>,
) -> Result<Vec<Finding, A>, AllocError>
    ensures { IfOk result (λ findings. findings.items ≡ absent_backbone (lists_of database.now)) }
{
    let borders = routers_that_pass(alloc, RouterTest::BorderOfAreas, database)?;
    if has_backbone(alloc, database)? || borders.is_empty() {
        return Ok(Vec::new(alloc));
    }
    Ok(vec![in alloc; Finding::MissingBackbone]?)
}

/// The area border routers without a router-LSA in the backbone.
fn missing_abrs<A: Allocator + Copy>(
    alloc: A,
    database: &Database<A>,
) -> Result<Vec<u32, A>, AllocError>
    ensures { IfOk result (λ ids. AreMissing nat_cmp
        (routers_that_pass RouterTest.BorderOfAreas (lists_of database.now))
        (filter_map router_described (backbone_lsas (lists_of database.now))) ids.items) }
{
    let borders = routers_that_pass(alloc, RouterTest::BorderOfAreas, database)?;
    let backbone = database.lsas(Section::Area(AreaId::BACKBONE));
    let described = described(alloc, Node::Router, backbone)?;
    missing(alloc, &borders, &described)
}

/// The routers that have no links in the backbone, and links in another area.
fn unlinked_abrs<A: Allocator + Copy>(
    alloc: A,
    database: &Database<A>,
) -> Result<Vec<u32, A>, AllocError>
    ensures { IfOk result (λ ids. AreShared nat_cmp
        (routers_that_pass RouterTest.UnlinkedInBackbone (lists_of database.now))
        (routers_that_pass RouterTest.LinkedElsewhere (lists_of database.now)) ids.items) }
{
    let unlinked = routers_that_pass(alloc, RouterTest::UnlinkedInBackbone, database)?;
    let linked = routers_that_pass(alloc, RouterTest::LinkedElsewhere, database)?;
    shared(alloc, &unlinked, &linked)
}

/// What the database lacks of area border routers (RFC 2328, 3.3): the backbone, and the
/// router-LSAs of these routers there; and then those of them whose router-LSA in the backbone has
/// no links, so that routers may calculate by RFC 3509. Routers rise, and each stands once.
///
/// # Errors
///
/// Memory ran out.
pub(crate) fn border_findings<A: Allocator + Copy>(
    alloc: A,
    database: &Database<A>,
) -> Result<Vec<Finding, A>, AllocError>
    ensures { IfOk result (λ findings. AreBorderFindings (lists_of database.now) findings.items) }
{
    let abrs = missing_abrs(alloc, database)?;
    let unlinked = unlinked_abrs(alloc, database)?;
    let mut findings = absent_backbone(alloc, database)?;
    put_each(&mut findings, &abrs, |id| {
        Finding::MissingAbr(RouterId(id))
    })?;
    put_each(&mut findings, &unlinked, |id| {
        Finding::NoLinks(RouterId(id))
    })?;
    Ok(findings)
}

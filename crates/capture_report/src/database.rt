//! What a database lacks.

ghost use Rattle.std.specs.Prelude.{◌≡◌, IfOk, map};
ghost use Rattle.std.specs.List.{AllZip, filter_map, flat_map};
ghost use Rattle.std.specs.Ordering.{nat_cmp};
ghost use Rattle.lsdb.specs.Lists.{areas_of, lsas_of};
ghost use Rattle.lsdb.specs.Slots.{lists_of};
ghost use Rattle.lsdb.specs.declared.section.Section.TheVariants.{Area, AsWide};
ghost use Rattle.capture_report.specs.DatabaseFindings.{AreDatabaseFindings, AreFindingsOfArea, AreFindingsOfAs, IsPartOf, routers_anywhere};
ghost use Rattle.capture_report.specs.Sets.{AreMissing};
ghost use Rattle.capture_report.specs.Borders.{routers_that_pass};
ghost use Rattle.capture_report.specs.Naming.{asbr_named, described_by, external_described, ls_type_of, named_by};

use crate::areas::areas_in;
use crate::borders::{RouterTest, border_findings, routers_that_pass};
use crate::each::put_each;
use crate::left_out::put_all_left_out;
use crate::naming::{Node, asbrs_named, described, externals_described, named};
use crate::sets::missing;
use findings::Finding;
use lsa_codec::{Addr, AreaId, RouterId};
use lsa_instances::Scope;
use lsdb::{Database, Section};
use std::alloc::{AllocError, Allocator};

/// The routers or transit networks that LSAs of an area name, and that no LSA of the area
/// describes.
fn missing_nodes<A: Allocator + Copy>(
    alloc: A,
    database: &Database<A>,
    area: AreaId,
    node: Node,
) -> Result<Vec<u32, A>, AllocError>
    ensures { IfOk result (λ ids. AreMissing nat_cmp
        (flat_map (named_by node) (lsas_of (Area area) (lists_of database.now)))
        (filter_map (described_by (ls_type_of node)) (lsas_of (Area area) (lists_of database.now)))
        ids.items) }
{
    let named = named(alloc, node, database.lsas(Section::Area(area)))?;
    let described = described(alloc, node, database.lsas(Section::Area(area)))?;
    missing(alloc, &named, &described)
}

/// The routers that have a router-LSA in some area.
fn routers_anywhere<A: Allocator + Copy>(
    alloc: A,
    database: &Database<A>,
) -> Result<Vec<u32, A>, AllocError>
    ensures { IfOk result (λ ids. ids.items ≡ routers_anywhere (lists_of database.now)) }
{
    let areas = areas_in(alloc, database)?;
    let mut found = Vec::new(alloc);
    for area in &areas {
        let lsas = database.lsas(Section::Area(*area));
        found.extend_from_slice(&described(alloc, Node::Router, lsas)?)?;
    }
    Ok(found)
}

/// The AS boundary routers of AS-external-LSAs, where no LSA of any area describes them.
fn missing_asbrs<A: Allocator + Copy>(
    alloc: A,
    database: &Database<A>,
) -> Result<Vec<u32, A>, AllocError>
    ensures { IfOk result (λ routers. AreMissing nat_cmp
        (filter_map asbr_named (lsas_of AsWide (lists_of database.now)))
        (routers_anywhere (lists_of database.now)) routers.items) }
{
    let named = asbrs_named(alloc, database.lsas(Section::AsWide))?;
    let described = routers_anywhere(alloc, database)?;
    missing(alloc, &named, &described)
}

/// The AS boundary routers without an AS-external-LSA.
fn missing_externals<A: Allocator + Copy>(
    alloc: A,
    database: &Database<A>,
) -> Result<Vec<u32, A>, AllocError>
    ensures { IfOk result (λ routers. AreMissing nat_cmp
        (routers_that_pass RouterTest.BorderOfAs (lists_of database.now))
        (filter_map external_described (lsas_of AsWide (lists_of database.now))) routers.items) }
{
    let borders = routers_that_pass(alloc, RouterTest::BorderOfAs, database)?;
    let described = externals_described(alloc, database.lsas(Section::AsWide))?;
    missing(alloc, &borders, &described)
}

/// The findings of an area.
fn findings_of_area<A: Allocator + Copy>(
    alloc: A,
    database: &Database<A>,
    area: AreaId,
) -> Result<Vec<Finding, A>, AllocError>
    ensures { IfOk result (λ findings.
        AreFindingsOfArea area (lsas_of (Area area) (lists_of database.now)) findings.items) }
{
    let routers = missing_nodes(alloc, database, area, Node::Router)?;
    let networks = missing_nodes(alloc, database, area, Node::Network)?;
    let mut findings = Vec::new(alloc);
    put_each(&mut findings, &routers, |id| {
        Finding::MissingRouter(area, RouterId(id))
    })?;
    put_each(&mut findings, &networks, |id| {
        Finding::MissingNetwork(area, Addr(id))
    })?;
    put_all_left_out(
        &mut findings,
        Scope::Area(area),
        database,
        Section::Area(area),
    )?;
    Ok(findings)
}

/// The findings of AS scope.
fn findings_of_as<A: Allocator + Copy>(
    alloc: A,
    database: &Database<A>,
) -> Result<Vec<Finding, A>, AllocError>
    ensures { IfOk result (λ findings. AreFindingsOfAs (lists_of database.now) findings.items) }
{
    let routers = missing_asbrs(alloc, database)?;
    let originators = missing_externals(alloc, database)?;
    let mut findings = Vec::new(alloc);
    put_each(&mut findings, &routers, |id| {
        Finding::MissingAsbr(RouterId(id))
    })?;
    put_each(&mut findings, &originators, |id| {
        Finding::MissingExternals(RouterId(id))
    })?;
    put_all_left_out(&mut findings, Scope::AsWide, database, Section::AsWide)?;
    Ok(findings)
}

/// The findings of each area, in the order of the areas.
fn findings_of_areas<A: Allocator + Copy>(
    alloc: A,
    database: &Database<A>,
) -> Result<Vec<Vec<Finding, A>, A>, AllocError>
    ensures { IfOk result (λ parts. AllZip (IsPartOf (lists_of database.now))
        (areas_of (lists_of database.now)) (map (λ part. part.items) parts.items)) }
{
    let mut parts = Vec::new(alloc);
    for i in 0..database.area_count() {
        let (area, _is_stub) = database.area(i);
        parts.push(findings_of_area(alloc, database, area)?)?;
    }
    Ok(parts)
}

/// All findings of these lists, one list after another.
fn joined<A: Allocator + Copy>(
    alloc: A,
    parts: &[Vec<Finding, A>],
) -> Result<Vec<Finding, A>, AllocError>
    ensures { IfOk result (λ findings. findings.items ≡ flat_map (λ part. part.items) parts.now) }
{
    let mut findings = Vec::new(alloc);
    for part in parts {
        findings.extend_from_slice(part)?;
    }
    Ok(findings)
}

/// What the database lacks, and what the planner leaves out of it: what is missing of area border
/// routers; for each area, in rising order, the routers that are missing, the networks, and what is
/// left out; and after that the same of the LSAs of AS scope. Routers and networks rise, and each
/// stands once.
///
/// # Errors
///
/// Memory ran out.
pub fn database_findings<A: Allocator + Copy>(
    alloc: A,
    database: &Database<A>,
) -> Result<Vec<Finding, A>, AllocError>
    ensures { IfOk result (λ findings. AreDatabaseFindings (lists_of database.now) findings.items) }
{
    let parts = findings_of_areas(alloc, database)?;
    let mut findings = border_findings(alloc, database)?;
    findings.append(&mut joined(alloc, &parts)?)?;
    findings.append(&mut findings_of_as(alloc, database)?)?;
    Ok(findings)
}

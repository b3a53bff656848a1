//! What the planner leaves out, where LSAs show it.

ghost use Rattle.std.specs.Prelude.{◌≡◌, ◌≤◌, ◌++◌, length, IfOk, OnOk, filter};
ghost use Rattle.std.specs.List.{count_by, flat_map};
ghost use Rattle.lsdb.specs.Counts.{has_bit_v, is_virtual};
ghost use Rattle.lsdb.specs.Lists.{lsas_of};
ghost use Rattle.lsdb.specs.Slots.{lists_of};
ghost use Rattle.capture_report.specs.LeftOut.{is_nssa, is_opaque, virtual_links, left_out, all_left_out};

use findings::{Feature, Finding};
use lsa_codec::{AS_OPAQUE_LSA, Link, LinkKind, Links, Lsa};
use lsa_instances::{LINK_OPAQUE_LSA, NSSA_LSA, Scope};
use lsdb::{Database, Lsas, Section};
use std::alloc::{AllocError, Allocator};

/// Whether it is an LSA of type 7.
fn is_nssa<A: Allocator + Copy>(lsa: &Lsa<A>) -> bool
    ensures { result ≡ is_nssa lsa.now }
{
    lsa.key().kind == NSSA_LSA
}

/// Whether it is an opaque LSA.
fn is_opaque<A: Allocator + Copy>(lsa: &Lsa<A>) -> bool
    ensures { result ≡ is_opaque lsa.now }
{
    let kind = lsa.key().kind;
    LINK_OPAQUE_LSA <= kind && kind <= AS_OPAQUE_LSA
}

/// Whether it is a router-LSA with bit V.
fn has_bit_v<A: Allocator + Copy>(lsa: &Lsa<A>) -> bool
    ensures { result ≡ has_bit_v lsa.now }
{
    match lsa.router() {
        Some(router) => router.flags() & 4 != 0,
        None => false,
    }
}

/// Whether it is a virtual link.
fn is_virtual(link: Link) -> bool
    ensures { result ≡ is_virtual link.kind }
{
    matches!(link.kind, LinkKind::Virtual)
}

/// The virtual links among these.
fn virtual_among<A: Allocator + Copy>(
    alloc: A,
    links: Links<'_>,
) -> Result<Vec<Link, A>, AllocError>
    ensures { IfOk result (λ found. found.items
        ≡ filter (λ link. is_virtual link.kind) links.entry) }
{
    links.filter(|link| is_virtual(*link)).collect(alloc)
}

/// The virtual links of an LSA.
fn virtual_of_lsa<A: Allocator + Copy>(alloc: A, lsa: &Lsa<A>) -> Result<Vec<Link, A>, AllocError>
    ensures { IfOk result (λ found. found.items ≡ virtual_links lsa.now) }
{
    match lsa.router() {
        Some(router) => virtual_among(alloc, router.links()),
        None => Ok(Vec::new(alloc)),
    }
}

/// The virtual links of LSAs.
fn virtual_links<A: Allocator + Copy>(
    alloc: A,
    lsas: Lsas<'_, A>,
) -> Result<Vec<Link, A>, AllocError>
    ensures { IfOk result (λ found. found.items ≡ flat_map virtual_links lsas.entry) }
{
    let mut found = Vec::new(alloc);
    for lsa in lsas {
        found.extend_from_slice(&virtual_of_lsa(alloc, lsa)?)?;
    }
    Ok(found)
}

/// The number of LSAs of type 7.
fn nssa_count<A: Allocator + Copy>(lsas: Lsas<'_, A>) -> usize
    requires { length lsas ≤ 65535 }
    ensures { result ≡ count_by is_nssa lsas.entry }
{
    lsas.filter(|lsa| is_nssa(*lsa)).count()
}

/// The number of opaque LSAs.
fn opaque_count<A: Allocator + Copy>(lsas: Lsas<'_, A>) -> usize
    requires { length lsas ≤ 65535 }
    ensures { result ≡ count_by is_opaque lsas.entry }
{
    lsas.filter(|lsa| is_opaque(*lsa)).count()
}

/// The number of router-LSAs with bit V.
fn virtual_ends<A: Allocator + Copy>(lsas: Lsas<'_, A>) -> usize
    requires { length lsas ≤ 65535 }
    ensures { result ≡ count_by has_bit_v lsas.entry }
{
    lsas.filter(|lsa| has_bit_v(*lsa)).count()
}

/// Adds what is left out, with its number, unless that is 0.
fn put_left_out<A: Allocator + Copy>(
    findings: &mut Vec<Finding, A>,
    scope: Scope,
    feature: Feature,
    count: usize,
) -> Result<(), AllocError>
    ensures { OnOk result (findings.new.items
        ≡ findings.old.items ++ left_out scope feature count) }
{
    if count != 0 {
        findings.push(Finding::LeftOut(scope, feature, count))?;
    }
    Ok(())
}

/// Adds what the LSAs of a scope show that the planner leaves out. They stand in this section.
pub(crate) fn put_all_left_out<A: Allocator + Copy>(
    findings: &mut Vec<Finding, A>,
    scope: Scope,
    database: &Database<A>,
    section: Section,
) -> Result<(), AllocError>
    ensures { OnOk result (findings.new.items ≡ findings.old.items
        ++ all_left_out scope (lsas_of section (lists_of database.now))) }
{
    let nssas = nssa_count(database.lsas(section));
    put_left_out(findings, scope, Feature::Nssa, nssas)?;
    let opaques = opaque_count(database.lsas(section));
    put_left_out(findings, scope, Feature::Opaque, opaques)?;
    let ends = virtual_ends(database.lsas(section));
    put_left_out(findings, scope, Feature::VirtualEnd, ends)?;
    let links = virtual_links(database.alloc(), database.lsas(section))?.len();
    put_left_out(findings, scope, Feature::VirtualLink, links)
}

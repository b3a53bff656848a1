//! LSAs whose originators are not described.

ghost use Rattle.std.specs.Prelude.{◌≡◌, ◌++◌, IfOk, OnOk};
ghost use Rattle.std.specs.List.{filter_map, flat_map};
ghost use Rattle.lsdb.specs.Slots.{lists_of};
ghost use Rattle.audit_lsas.specs.Orphans.{boundaries_in, described_boundary, described_routers, is_orphan_in, is_orphan_of_as, orphan_lsa_places};

use crate::found::lsa_places;
use crate::lsa_test::LsaTest;
use crate::scope::AreaScope;
use area_routes::is_attached;
use audit_areas::push_some;
use audit_places::Place;
use audit_routers::RouterList;
use link_report::area_ids;
use lsa_codec::{ASBR_SUMMARY_LSA, AreaId, EXTERNAL_LSA, LS_INFINITY, Lsa, NETWORK_LSA, RouterId};
use lsdb::{Database, Section};
use routing_table::routers;
use std::alloc::{AllocError, Allocator};
use std::marker::Model;

/// The AS boundary router that an LSA describes, if it is a live summary-LSA of type 4 with another
/// metric than LSInfinity.
fn described_boundary<A: Allocator + Copy>(lsa: &Lsa<A>) -> Option<RouterId>
    ensures { result ≡ described_boundary lsa.now }
{
    let summary = lsa.summary()?;
    let key = lsa.key();
    if lsa.at_max_age() || key.kind != ASBR_SUMMARY_LSA || summary.metric() == LS_INFINITY {
        return None;
    }
    Some(RouterId(key.id.0))
}

/// The AS boundary routers that the summary-LSAs of an area describe.
fn boundaries_in<A: Allocator + Copy>(
    alloc: A,
    database: &Database<A>,
    area: AreaId,
) -> Result<Vec<RouterId, A>, AllocError>
    ensures { IfOk result
        (λ routers. routers.items ≡ boundaries_in (lists_of database.now) area) }
{
    let mut found = Vec::new(alloc);
    for lsa in database.lsas(Section::Area(area)) {
        push_some(&mut found, described_boundary(lsa))?;
    }
    Ok(found)
}

/// Adds the AS boundary routers that the summary-LSAs of some areas describe.
fn push_boundaries<A: Allocator + Copy>(
    found: &mut Vec<RouterId, A>,
    alloc: A,
    database: &Database<A>,
    areas: &[AreaId],
) -> Result<(), AllocError>
    ensures { OnOk result (found.new.items
        ≡ found.old.items ++ flat_map (boundaries_in (lists_of database.now)) areas.now) }
{
    for area in areas {
        let mut more = boundaries_in(alloc, database, *area)?;
        found.append(&mut more)?;
    }
    Ok(())
}

/// The routers with a live router-LSA, and the AS boundary routers that summary-LSAs describe.
fn described_routers<A: Allocator + Copy>(
    alloc: A,
    database: &Database<A>,
) -> Result<RouterList<A>, AllocError>
    ensures { IfOk result (λ routers. routers ≡ described_routers (lists_of database.now)) }
{
    let areas = area_ids(alloc, database)?;
    let mut found = routers(alloc, database)?;
    push_boundaries(&mut found, alloc, database, &areas)?;
    RouterList::of(alloc, &found)
}

/// Whether an LSA of an area is a live one of types 2 to 4 without a live router-LSA of its
/// originator there.
fn is_orphan_in<A: Allocator + Copy, B: Allocator + Copy>(
    database: &Database<B>,
    area: AreaScope,
    lsa: &Lsa<A>,
) -> bool
    ensures { result ≡ is_orphan_in (lists_of database.now) area lsa.now }
{
    let key = lsa.key();
    !lsa.at_max_age()
        && NETWORK_LSA <= key.kind
        && key.kind <= ASBR_SUMMARY_LSA
        && !is_attached(database, area.id, key.adv)
}

/// Whether an LSA of AS scope is a live AS-external-LSA whose originator is not among these.
fn is_orphan_of_as<A: Allocator + Copy, B: Allocator + Copy>(
    described: &RouterList<B>,
    lsa: &Lsa<A>,
) -> bool
    ensures { result ≡ is_orphan_of_as described.now lsa.now }
{
    let key = lsa.key();
    !lsa.at_max_age() && key.kind == EXTERNAL_LSA && !described.has(key.adv)
}

/// The test of `orphan-lsa`, with the routers that are described. Contracts see it as the record of
/// its fields.
#[derive(Drop)]
struct Orphans<'a, A: Allocator> {
    database: &'a Database<A>,
    described: RouterList<A>,
}

impl<'a, A: Allocator> Model for Orphans<'a, A> {
    ghost use Rattle.lsdb.specs.Slots.{lists_of};
    ghost use Rattle.audit_lsas.specs.Orphans.{OrphansValue};

    ghost Value = { OrphansValue };

    ghost view = { λ o. record { db = lists_of o.database.now; described = o.described } };
}

impl<'a, B: Allocator + Copy> LsaTest for Orphans<'a, B> {
    ghost use Rattle.audit_lsas.specs.Orphans.{is_orphan};

    ghost passes_as = { λ o. is_orphan o.db o.described };

    fn passes<A: Allocator + Copy>(&self, scope: Option<AreaScope>, lsa: &Lsa<A>) -> bool {
        match scope {
            Some(area) => is_orphan_in(self.database, area, lsa),
            None => is_orphan_of_as(&self.described, lsa),
        }
    }
}

/// The live LSAs of types 2 to 4 without a live router-LSA of their originators in the area, and
/// the live AS-external-LSAs whose originators have neither a live router-LSA nor a live
/// summary-LSA of type 4 with another metric than LSInfinity (RFC 2328, 12.4 and 16).
///
/// # Errors
///
/// Memory ran out.
pub fn orphan_lsa_places<A: Allocator + Copy>(
    alloc: A,
    database: &Database<A>,
) -> Result<Vec<Place<A>, A>, AllocError>
    ensures { IfOk result (λ places. places.items ≡ orphan_lsa_places (lists_of database.now)) }
{
    let described = described_routers(alloc, database)?;
    let test = Orphans {
        database,
        described,
    };
    lsa_places(alloc, &test, database)
}

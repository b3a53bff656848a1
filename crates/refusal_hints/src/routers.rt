//! What would have been right in place of an area, a router, a link or a network that is not there.

ghost use Rattle.std.specs.Prelude.{◌≡◌, ◌++◌, IfOk, map};
ghost use Rattle.lsdb.specs.Slots.{lists_of};
ghost use Rattle.refusal_hints.specs.RouterHints.{anywhere_hint, area_has, area_hint, area_text, attached_hint, database_has, link_hint, network_hint, router_hint, unattached_hint};

use crate::described::{area_with, described, link_total};
use crate::nearest::push_nearest;
use crate::situation::Situation;
use link_report::area_ids;
use lsa_codec::{Addr, AreaId, NETWORK_LSA, ROUTER_LSA, RouterId};
use lsdb::Database;
use std::alloc::{AllocError, Allocator};
use study_text::{push_address, push_number, push_word};

/// The IDs of areas.
fn ids_of_areas<A: Allocator + Copy>(alloc: A, areas: &[AreaId]) -> Result<Vec<u32, A>, AllocError>
    ensures { IfOk result (λ ids. ids.items ≡ map (λ area. area.0) areas.now) }
{
    areas.iter().map(|area| area.0).collect(alloc)
}

/// The IDs of routers.
fn ids_of_routers<A: Allocator + Copy>(
    alloc: A,
    routers: &[RouterId],
) -> Result<Vec<u32, A>, AllocError>
    ensures { IfOk result (λ ids. ids.items ≡ map (λ router. router.0) routers.now) }
{
    routers.iter().map(|router| router.0).collect(alloc)
}

/// What the database has in place of an address that it does not have: the nearest one.
fn database_has<A: Allocator + Copy>(
    alloc: A,
    otherwise: &str,
    address: u32,
    those: &[u32],
) -> Result<Vec<u8, A>, AllocError>
    ensures { IfOk result
        (λ text. text.items ≡ database_has otherwise.now address those.now) }
{
    let mut text = Vec::new(alloc);
    push_word(&mut text, "the database")?;
    push_nearest(alloc, &mut text, otherwise, address, those)?;
    Ok(text)
}

/// In place of an area that the database does not have: the nearest one that it has.
pub(crate) fn area_hint<A: Allocator + Copy>(
    alloc: A,
    database: &Database<A>,
    area: AreaId,
) -> Result<Vec<u8, A>, AllocError>
    ensures { IfOk result (λ text. text.items ≡ area_hint (lists_of database.now) area) }
{
    let ids = ids_of_areas(alloc, &area_ids(alloc, database)?)?;
    database_has(alloc, " has no area", area.0, &ids)
}

/// An area, as `area 0.0.0.1`, after a word.
fn area_text<A: Allocator + Copy>(
    alloc: A,
    word: &str,
    area: AreaId,
) -> Result<Vec<u8, A>, AllocError>
    ensures { IfOk result (λ text. text.items ≡ word.now ++ area_text area) }
{
    let mut text = Vec::new(alloc);
    push_word(&mut text, word)?;
    push_word(&mut text, "area ")?;
    push_address(&mut text, Addr(area.0))?;
    Ok(text)
}

/// What an area has in place of an address that its LSAs of a type do not describe: the nearest
/// one.
fn area_has<A: Allocator + Copy>(
    alloc: A,
    database: &Database<A>,
    kind: u8,
    area: AreaId,
    otherwise: &str,
    address: u32,
) -> Result<Vec<u8, A>, AllocError>
    ensures { IfOk result (λ text. text.items
        ≡ area_has (lists_of database.now) kind area otherwise.now address) }
{
    let those = described(alloc, database, kind, &[area])?;
    let mut text = area_text(alloc, "", area)?;
    push_nearest(alloc, &mut text, otherwise, address, &those)?;
    Ok(text)
}

/// In place of a router that an area does not have: another area that has it, or the nearest router
/// of this one.
pub(crate) fn router_hint<A: Allocator + Copy>(
    alloc: A,
    database: &Database<A>,
    area: AreaId,
    router: RouterId,
) -> Result<Vec<u8, A>, AllocError>
    ensures { IfOk result (λ text. text.items ≡ router_hint (lists_of database.now) area router) }
{
    match area_with(alloc, database, router)? {
        Some(other) => area_text(alloc, "it is in ", other),
        None => area_has(
            alloc,
            database,
            ROUTER_LSA,
            area,
            " has no router",
            router.0,
        ),
    }
}

/// In place of a router that no area has: the nearest one that some area has.
pub(crate) fn anywhere_hint<A: Allocator + Copy>(
    alloc: A,
    database: &Database<A>,
    router: RouterId,
) -> Result<Vec<u8, A>, AllocError>
    ensures { IfOk result (λ text. text.items ≡ anywhere_hint (lists_of database.now) router) }
{
    let areas = area_ids(alloc, database)?;
    let those = described(alloc, database, ROUTER_LSA, &areas)?;
    database_has(alloc, " has no router", router.0, &those)
}

/// In place of a network that an area does not have: the nearest one that it has.
pub(crate) fn network_hint<A: Allocator + Copy>(
    alloc: A,
    database: &Database<A>,
    area: AreaId,
    network: Addr,
) -> Result<Vec<u8, A>, AllocError>
    ensures { IfOk result (λ text. text.items ≡ network_hint (lists_of database.now) area network) }
{
    area_has(
        alloc,
        database,
        NETWORK_LSA,
        area,
        " has no network",
        network.0,
    )
}

/// In place of a link that a router does not have: the numbers of those that it has.
pub(crate) fn link_hint<A: Allocator + Copy>(
    alloc: A,
    database: &Database<A>,
    area: AreaId,
    router: RouterId,
) -> Result<Vec<u8, A>, AllocError>
    ensures { IfOk result (λ text. text.items ≡ link_hint (lists_of database.now) area router) }
{
    let total = link_total(database, area, router);
    let mut text = Vec::new(alloc);
    push_address(&mut text, Addr(router.0))?;
    if total == 0 {
        push_word(&mut text, " has no link")?;
    } else {
        push_word(&mut text, " has links 1 to ")?;
        push_number(&mut text, u64::from(total))?;
    }
    Ok(text)
}

/// In place of a router that is not attached: the nearest one of those that are.
fn attached_hint<A: Allocator + Copy>(
    alloc: A,
    router: RouterId,
    attached: &[RouterId],
) -> Result<Vec<u8, A>, AllocError>
    ensures { IfOk result (λ text. text.items ≡ attached_hint router attached.now) }
{
    if attached.is_empty() {
        return Vec::from_slice(alloc, b"no router is attached");
    }
    let those = ids_of_routers(alloc, attached)?;
    database_has(alloc, "", router.0, &those)
}

/// In place of a router that is not attached: that it was, in the baseline, or the nearest one that
/// is.
pub(crate) fn unattached_hint<A: Allocator + Copy>(
    alloc: A,
    situation: &Situation<'_, A>,
    router: RouterId,
) -> Result<Vec<u8, A>, AllocError>
    ensures { IfOk result (λ text. text.items ≡ unattached_hint situation.now router) }
{
    if situation.was_attached(alloc, router)? {
        return Vec::from_slice(alloc, b"it is in the baseline alone");
    }
    attached_hint(alloc, router, &situation.attached(alloc)?)
}

//! The summary-LSAs whose metrics follow from the database.

ghost use Rattle.std.specs.Prelude.{◌≡◌};
ghost use Rattle.lsdb.specs.Slots.{lists_of};
ghost use Rattle.external_routes.specs.Summaries.{borders, is_calculated};
ghost use Rattle.external_routes.specs.Summaries.{is_covered, is_default};
ghost use Rattle.external_routes.specs.Summaries.{is_stub_default};

use crate::areas::{is_attached_elsewhere, is_stub_area};
use area_routes::is_attached;
use lsa_codec::{AreaId, Lsa, Prefix, RouterId};
use lsdb::Database;
use std::alloc::Allocator;

/// Whether a router belongs to this area and to another one, as an area border router does.
fn borders<A: Allocator + Copy>(database: &Database<A>, area: AreaId, router: RouterId) -> bool
    ensures { result ≡ borders (lists_of database.now) area router }
{
    is_attached(database, area, router) && is_attached_elsewhere(database, area, router)
}

/// Whether this is the prefix of the default destination.
fn is_default(net: Prefix) -> bool
    ensures { result ≡ is_default net }
{
    net.len() == 0
}

/// Whether an LSA of an area is for the default destination in a stub area.
fn is_stub_default<A: Allocator + Copy>(
    database: &Database<A>,
    area: AreaId,
    net: Option<Prefix>,
) -> bool
    ensures { result ≡ is_stub_default (lists_of database.now) area net }
{
    match net {
        Some(net) => is_default(net) && is_stub_area(database, area),
        None => false,
    }
}

/// Whether an LSA of an area is a live summary-LSA whose metric is calculated: it is not for the
/// default destination in a stub area, whose metric is configured (RFC 2328, 12.4.3.1). It takes no
/// memory.
pub fn is_calculated<A: Allocator + Copy>(
    database: &Database<A>,
    area: AreaId,
    lsa: &Lsa<A>,
) -> bool
    ensures { result ≡ is_calculated (lists_of database.now) area lsa.now }
{
    let Some(summary) = lsa.summary() else {
        return false;
    };
    !lsa.at_max_age() && !is_stub_default(database, area, summary.net())
}

/// Whether the metric of an LSA of an area follows from the database, as that of a summary-LSA of
/// an area border router does (RFC 2328, 12.4.3): it is calculated, and its originator is attached
/// to the area and to another one. It takes no memory.
pub fn covered<A: Allocator + Copy>(database: &Database<A>, area: AreaId, lsa: &Lsa<A>) -> bool
    ensures { result ≡ is_covered (lists_of database.now) area lsa.now }
{
    is_calculated(database, area, lsa) && borders(database, area, lsa.key().adv)
}

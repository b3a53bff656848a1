//! What a session counts.

ghost use Rattle.std.specs.Prelude.{◌≡◌};
ghost use Rattle.lsdb.specs.Counts.{counts_of};
ghost use Rattle.lsdb.specs.Slots.{lists_of};
ghost use Rattle.routing_table.specs.AreaLsas.{area_lsas};
ghost use Rattle.edit_history.specs.Session.{start};
ghost use Rattle.recalculate.specs.Counts.{info_of};

use crate::planner::Planner;
use lsdb::{Database, LsaCounts, Section};
use std::alloc::Allocator;

/// What a session counts: the areas and LSAs of its database, what virtual links leave in them,
/// and its edits. An LSA counts at any age.
#[derive(Clone, Copy, Debug, PartialEq, Eq)]
pub struct Info {
    /// The areas.
    pub areas: usize,
    /// The LSAs of all areas.
    pub lsas: usize,
    /// The LSAs of AS scope.
    pub as_lsas: usize,
    /// The router-LSAs of all areas with bit V, which the endpoints of virtual links set in the
    /// router-LSA of the transit area (RFC 2328, A.4.2).
    pub vbits: usize,
    /// The links of type 4, virtual links, of the router-LSAs of all areas (RFC 2328, A.4.2).
    pub vlinks: usize,
    /// The edits that are done.
    pub done: usize,
    /// The edits that were undone and can be redone.
    pub undone: usize,
}

impl<A: Allocator + Copy> Planner<A> {
    /// What the session counts. It takes no memory.
    pub fn info(&self) -> Info
        ensures { result ≡ info_of self.now.session }
    {
        Info {
            done: self.done(),
            undone: self.undone(),
            ..beginning_of(self.database())
        }
    }
}

/// What a session counts that begins at a database.
pub(crate) fn beginning_of<A: Allocator + Copy>(database: &Database<A>) -> Info
    ensures { result ≡ info_of (start (lists_of database.now)) }
{
    let counts = area_counts(database);
    Info {
        areas: database.area_count(),
        lsas: counts.lsas,
        as_lsas: database.count(Section::AsWide),
        vbits: counts.virtual_ends,
        vlinks: counts.virtual_links,
        done: 0,
        undone: 0,
    }
}

/// What the LSAs of all areas count. It goes through the areas, and not through their LSAs.
fn area_counts<A: Allocator + Copy>(database: &Database<A>) -> LsaCounts
    ensures { result ≡ counts_of (area_lsas (lists_of database.now)) }
{
    // For its limits: the counts fit.
    database.assert_valid();
    let mut lsas = 0;
    let mut virtual_ends = 0;
    let mut virtual_links = 0;
    // The areas are the first sections, in the same order.
    for section in 0..database.area_count() {
        let counts = database.counts_in(section);
        lsas += counts.lsas;
        virtual_ends += counts.virtual_ends;
        virtual_links += counts.virtual_links;
    }
    LsaCounts {
        lsas,
        virtual_ends,
        virtual_links,
    }
}

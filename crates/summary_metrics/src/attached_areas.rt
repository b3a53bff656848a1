//! The areas that a router is attached to.

ghost use Rattle.std.specs.Prelude.{◌≡◌, IfOk};
ghost use Rattle.lsdb.specs.Slots.{lists_of};
ghost use Rattle.routing_table.specs.AreasTrees.{AreOfDatabase};
ghost use Rattle.summary_metrics.specs.SummaryMetrics.{ids_attached};
ghost use Rattle.summary_metrics.specs.steps.AnnouncedCosts.{has_another, is_border_of};

use external_routes::is_among;
use lsa_codec::{AreaId, RouterId};
use lsdb::Database;
use routing_table::KeptTrees;
use std::alloc::{AllocError, Allocator};
use std::marker::Model;

/// The areas that a router is attached to, in rising order of their IDs. Contracts see them as this
/// list.
#[derive(Drop)]
pub(crate) struct AttachedAreas<A: Allocator> {
    areas: Vec<AreaId, A>,
}

impl<A: Allocator> Model for AttachedAreas<A> {
    ghost use Rattle.std.specs.Prelude.{List};
    ghost use Rattle.lsa_codec.specs.declared.address.AreaId.{AreaId as AnyArea};

    ghost Value = { List AnyArea };

    ghost view = { λ a. a.areas.items };
}

impl<A: Allocator + Copy> AttachedAreas<A> {
    /// The areas that a router is attached to in a database.
    pub(crate) fn of(
        alloc: A,
        database: &Database<A>,
        trees: &KeptTrees<A>,
        router: RouterId,
    ) -> Result<AttachedAreas<A>, AllocError>
        requires { AreOfDatabase (lists_of database.now) trees.now }
        ensures { IfOk result (λ areas. areas ≡ ids_attached (lists_of database.now) router) }
    {
        let mut areas = Vec::new(alloc);
        for i in 0..database.area_count() {
            let (area, _is_stub) = database.area(i);
            if trees.is_attached(database, area, router) {
                areas.push(area)?;
            }
        }
        Ok(AttachedAreas { areas })
    }

    /// Whether an area other than this one is among them.
    fn has_another(&self, area: AreaId) -> bool
        ensures { result ≡ has_another area self.now }
    {
        self.areas.iter().any(|other| *other != area)
    }

    /// Whether they are this area and at least one other, as for an area border router.
    pub(crate) fn is_border_of(&self, area: AreaId) -> bool
        ensures { result ≡ is_border_of area self.now }
    {
        is_among(area, self.areas.as_slice()) && self.has_another(area)
    }
}

//! What is sought in the links of a router: neighbors, addresses, transit networks.

ghost use Rattle.std.specs.Prelude.{◌≡◌, IfOk};
ghost use Rattle.lsdb.specs.Slots.{lists_of};
ghost use Rattle.refusal_hints.specs.RouterLinks.{sought, sought_among, sought_in, sought_of};

use interfaces::router_lsa_of;
use link_report::{area_ids, rising};
use lsa_codec::{AreaId, Link, LinkKind, RouterId};
use lsdb::Database;
use std::alloc::{AllocError, Allocator};

/// What is sought in the links of a router.
#[derive(Clone, Copy)]
pub(crate) enum Sought {
    /// The routers to which point-to-point links lead.
    Neighbors,
    /// The Link Data of point-to-point links to a router.
    AddressesTo(RouterId),
    /// The Link Data of links to routers and to transit networks.
    Addresses,
    /// The transit networks to which links lead, by the addresses of their Designated Routers.
    Networks,
}

impl Sought {
    /// What is sought, of a link.
    fn of(self, link: Link) -> Option<u32>
        ensures { result ≡ sought_of self link }
    {
        let leads = matches!(link.kind, LinkKind::PointToPoint);
        match self {
            Sought::Neighbors if leads => Some(link.id.0),
            Sought::AddressesTo(router) if leads && link.id.0 == router.0 => Some(link.link_data.0),
            Sought::Addresses if link.kind.has_cost() => Some(link.link_data.0),
            Sought::Networks if matches!(link.kind, LinkKind::Transit) => Some(link.id.0),
            _ => None,
        }
    }

    /// What is sought of a router in an area.
    pub(crate) fn in_area<A: Allocator + Copy>(
        self,
        alloc: A,
        database: &Database<A>,
        router: RouterId,
        area: AreaId,
    ) -> Result<Vec<u32, A>, AllocError>
        ensures { IfOk result (λ found. found.items
            ≡ sought_in self (lists_of database.now) router area) }
    {
        let Some(lsa) = router_lsa_of(database, area, router) else {
            return Ok(Vec::new(alloc));
        };
        lsa.links().filter_map(|link| self.of(link)).collect(alloc)
    }

    /// What is sought of a router in some areas, in rising order, each once.
    fn in_areas<A: Allocator + Copy>(
        self,
        alloc: A,
        database: &Database<A>,
        router: RouterId,
        areas: &[AreaId],
    ) -> Result<Vec<u32, A>, AllocError>
        ensures { IfOk result (λ found. found.items
            ≡ sought_among self (lists_of database.now) router areas.now) }
    {
        let mut found = Vec::new(alloc);
        for area in areas {
            let mut more = self.in_area(alloc, database, router, *area)?;
            found.append(&mut more)?;
        }
        rising(alloc, &found)
    }

    /// What is sought of a router in all areas.
    pub(crate) fn of_router<A: Allocator + Copy>(
        self,
        alloc: A,
        database: &Database<A>,
        router: RouterId,
    ) -> Result<Vec<u32, A>, AllocError>
        ensures { IfOk result
            (λ found. found.items ≡ sought self (lists_of database.now) router) }
    {
        let areas = area_ids(alloc, database)?;
        self.in_areas(alloc, database, router, &areas)
    }
}

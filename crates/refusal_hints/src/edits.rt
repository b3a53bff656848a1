//! Which word of an edit is at fault, and what would have been right.

ghost use Rattle.std.specs.Prelude.{◌≡◌, ◌++◌, IfOk, codes, decimal};
ghost use Rattle.lsa_codec.specs.Spelling.{address_text};
ghost use Rattle.lsdb.specs.Slots.{lists_of};
ghost use Rattle.refusal_hints.specs.EditHints.{anywhere_advice, area_advice, edit_advice, end_advice, ends_advice, externals_hint, network_advice, no_link_hint, router_advice, summaries_hint};
ghost use Rattle.refusal_hints.specs.LimitHints.{limit_advice};

use crate::advice::Advice;
use crate::described::{count_originated, is_described};
use crate::events::event_advice;
use crate::limit::limit_advice;
use crate::routers::{anywhere_hint, area_hint, link_hint, network_hint, router_hint};
use edit_history::EditFault;
use edit_script::Edit;
use lsa_codec::{Addr, AreaId, EXTERNAL_LSA, RouterId, SUMMARY_LSA};
use lsdb::{Database, Section};
use std::alloc::{AllocError, Allocator};
use study_text::{push_address, push_number_after, push_word};

/// How many of something a router has: `3.3.3.3 has 1 externals`.
fn counted<A: Allocator + Copy>(
    alloc: A,
    router: RouterId,
    count: usize,
    what: &str,
) -> Result<Vec<u8, A>, AllocError>
    ensures { IfOk result (λ text. text.items
        ≡ address_text router.0 ++ codes " has " ++ decimal count ++ what.now) }
{
    let mut text = Vec::new(alloc);
    push_address(&mut text, Addr(router.0))?;
    push_number_after(&mut text, " has ", count as u64)?;
    push_word(&mut text, what)?;
    Ok(text)
}

/// How many summary-LSAs of a router an area has.
fn summaries_hint<A: Allocator + Copy>(
    alloc: A,
    database: &Database<A>,
    area: AreaId,
    router: RouterId,
) -> Result<Vec<u8, A>, AllocError>
    ensures { IfOk result (λ text. text.items
        ≡ summaries_hint (lists_of database.now) area router) }
{
    let lsas = database.lsas(Section::Area(area));
    let count = count_originated(SUMMARY_LSA, router, lsas);
    counted(alloc, router, count, " summaries in the area")
}

/// How many AS-external-LSAs of a router there are.
fn externals_hint<A: Allocator + Copy>(
    alloc: A,
    database: &Database<A>,
    router: RouterId,
) -> Result<Vec<u8, A>, AllocError>
    ensures { IfOk result (λ text. text.items ≡ externals_hint (lists_of database.now) router) }
{
    let count = count_originated(EXTERNAL_LSA, router, database.lsas(Section::AsWide));
    counted(alloc, router, count, " externals")
}

/// How a router has no link to another one.
fn no_link_hint<A: Allocator + Copy>(alloc: A, router: RouterId) -> Result<Vec<u8, A>, AllocError>
    ensures { IfOk result (λ text. text.items ≡ no_link_hint router) }
{
    let mut text = Vec::new(alloc);
    push_address(&mut text, Addr(router.0))?;
    push_word(&mut text, " has no point-to-point link to it")?;
    Ok(text)
}

/// A database that refuses an edit, and why.
#[derive(Drop)]
struct Refused<'d, A: Allocator> {
    alloc: A,
    database: &'d Database<A>,
    why: EditFault,
}

impl<'d, A: Allocator + Copy> Refused<'d, A> {
    /// Of any edit, where a limit is reached.
    fn limit(&self) -> Result<Advice<A>, AllocError>
        ensures { IfOk result (λ it. it ≡ limit_advice self.now.why) }
    {
        limit_advice(self.alloc, self.why)
    }

    /// Of an edit in an area.
    fn in_area(&self, area: AreaId) -> Result<Advice<A>, AllocError>
        ensures { IfOk result
            (λ it. it ≡ area_advice (lists_of self.now.database.now) area self.now.why) }
    {
        match self.why {
            EditFault::NoArea => Ok(Advice::at(1, area_hint(self.alloc, self.database, area)?)),
            _ => self.limit(),
        }
    }

    /// Of an edit of a router in an area.
    fn of_router(&self, area: AreaId, router: RouterId) -> Result<Advice<A>, AllocError>
        ensures { IfOk result
            (λ it. it ≡ router_advice (lists_of self.now.database.now) area router self.now.why) }
    {
        let (alloc, database) = (self.alloc, self.database);
        match self.why {
            EditFault::NoRouter => Ok(Advice::at(2, router_hint(alloc, database, area, router)?)),
            EditFault::NoLink => Ok(Advice::at(3, link_hint(alloc, database, area, router)?)),
            EditFault::ZeroCost => Advice::of(alloc, 4, "a link of this type costs 1 to 65535"),
            EditFault::NoSummary => {
                Ok(Advice::at(3, summaries_hint(alloc, database, area, router)?))
            }
            EditFault::KeyTaken => Advice::of(alloc, 3, "summary changes it"),
            EditFault::TooLong => Advice::of(alloc, 2, "its router-LSA is full"),
            _ => self.in_area(area),
        }
    }

    /// Of two routers the first that an area does not have.
    fn of_end(
        &self,
        area: AreaId,
        router: RouterId,
        neighbor: RouterId,
    ) -> Result<Advice<A>, AllocError>
        ensures { IfOk result
            (λ it. it ≡ end_advice (lists_of self.now.database.now) area router neighbor) }
    {
        let (alloc, database) = (self.alloc, self.database);
        if is_described(database, router, area) {
            return Ok(Advice::at(3, router_hint(alloc, database, area, neighbor)?));
        }
        Ok(Advice::at(2, router_hint(alloc, database, area, router)?))
    }

    /// Of an edit of the links between two routers.
    fn of_ends(
        &self,
        area: AreaId,
        router: RouterId,
        neighbor: RouterId,
    ) -> Result<Advice<A>, AllocError>
        ensures { IfOk result (λ it. it
            ≡ ends_advice (lists_of self.now.database.now) area router neighbor self.now.why) }
    {
        match self.why {
            EditFault::NoRouter => self.of_end(area, router, neighbor),
            EditFault::SameRouter => Advice::of(self.alloc, 3, "name the two ends"),
            EditFault::NoLink => Ok(Advice::at(3, no_link_hint(self.alloc, router)?)),
            _ => self.in_area(area),
        }
    }

    /// Of an edit of a network in an area.
    fn of_network(&self, area: AreaId, network: Addr) -> Result<Advice<A>, AllocError>
        ensures { IfOk result
            (λ it. it ≡ network_advice (lists_of self.now.database.now) area network self.now.why) }
    {
        match self.why {
            EditFault::NoNetwork => {
                Ok(Advice::at(2, network_hint(self.alloc, self.database, area, network)?))
            }
            _ => self.in_area(area),
        }
    }

    /// Of an edit of a router that names no area.
    fn anywhere(&self, router: RouterId) -> Result<Advice<A>, AllocError>
        ensures { IfOk result
            (λ it. it ≡ anywhere_advice (lists_of self.now.database.now) router self.now.why) }
    {
        let (alloc, database) = (self.alloc, self.database);
        match self.why {
            EditFault::NoRouter => Ok(Advice::at(1, anywhere_hint(alloc, database, router)?)),
            EditFault::NoExternal => Ok(Advice::at(2, externals_hint(alloc, database, router)?)),
            EditFault::KeyTaken => Advice::of(alloc, 2, "drop-external removes it"),
            _ => self.limit(),
        }
    }
}

/// Which word of an edit is at fault, and what would have been right, by the database that refuses
/// it and by the reason.
#[tactic(auto, unfolding(crate::specs::EditHints::edit_advice))]
pub(crate) fn edit_advice<A: Allocator + Copy>(
    alloc: A,
    database: &Database<A>,
    edit: &Edit,
    why: EditFault,
) -> Result<Advice<A>, AllocError>
    ensures { IfOk result (λ it. it ≡ edit_advice (lists_of database.now) edit.now why) }
{
    let refused = Refused {
        alloc,
        database,
        why,
    };
    match *edit {
        Edit::Cost { area, router, .. }
        | Edit::DropLink { area, router, .. }
        | Edit::AddStub { area, router, .. }
        | Edit::Summary { area, router, .. }
        | Edit::AddSummary { area, router, .. } => refused.of_router(area, router),
        Edit::FailLink {
            area,
            router,
            neighbor,
        } => refused.of_ends(area, router, neighbor),
        Edit::FailNet { area, network } => refused.of_network(area, network),
        Edit::FailRouter { router }
        | Edit::AddExternal { router, .. }
        | Edit::DropExternal { router, .. } => refused.anywhere(router),
        Edit::Refresh => refused.limit(),
        Edit::Event(event) => event_advice(alloc, database, event, why),
    }
}

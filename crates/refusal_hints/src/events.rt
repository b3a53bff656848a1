//! Which word of an event is at fault, and what would have been right.

ghost use Rattle.std.specs.Prelude.{◌≡◌, IfOk, OnOk, ◌++◌};
ghost use Rattle.lsa_codec.specs.Spelling.{address_text};
ghost use Rattle.lsdb.specs.Slots.{lists_of};
ghost use Rattle.refusal_hints.specs.EventHints.{address_hint, addresses_of, cost_advice, cut_advice, either_advice, event_advice, far_hint, has_those, leave_advice, neighbors_hint, one_router_advice, two_routers_advice};

use crate::advice::Advice;
use crate::described::area_with;
use crate::limit::limit_advice;
use crate::nearest::push_nearest;
use crate::networks::networks_hint;
use crate::router_links::Sought;
use crate::routers::anywhere_hint;
use edit_history::EditFault;
use edit_script::Event;
use lsa_codec::{Addr, RouterId};
use lsdb::Database;
use network_names::Names;
use std::alloc::{AllocError, Allocator};
use study_text::{push_address, push_joined_or, push_word};

/// Addresses by their numbers.
fn addresses<A: Allocator + Copy>(alloc: A, numbers: &[u32]) -> Result<Vec<Addr, A>, AllocError>
    ensures { IfOk result (λ found. found.items ≡ addresses_of numbers.now) }
{
    numbers.iter().map(|number| Addr(*number)).collect(alloc)
}

/// Adds the addresses that a router has, by their numbers, or that it has none.
fn push_those<A: Allocator + Copy>(
    alloc: A,
    text: &mut Vec<u8, A>,
    numbers: &[u32],
) -> Result<(), AllocError>
    ensures { OnOk result (text.new.items ≡ text.old.items ++ has_those numbers.now) }
{
    let those = addresses(alloc, numbers)?;
    let names = Names::new(alloc);
    push_joined_or(text, &names, " has none", " has ", ", ", &those)
}

/// Adds a router, and then a word.
fn push_router_and<A: Allocator + Copy>(
    text: &mut Vec<u8, A>,
    router: u32,
    word: &str,
) -> Result<(), AllocError>
    ensures { OnOk result (text.new.items ≡ text.old.items ++ address_text router ++ word.now) }
{
    push_address(text, Addr(router))?;
    push_word(text, word)
}

/// In place of a router that is no neighbor of another one: the neighbors of this one.
fn neighbors_hint<A: Allocator + Copy>(
    alloc: A,
    database: &Database<A>,
    router: RouterId,
    other: Addr,
) -> Result<Vec<u8, A>, AllocError>
    ensures { IfOk result (λ text. text.items
        ≡ neighbors_hint (lists_of database.now) router other) }
{
    let found = Sought::Neighbors.of_router(alloc, database, router)?;
    let mut text = Vec::new(alloc);
    push_router_and(&mut text, router.0, " and ")?;
    push_router_and(&mut text, other.0, " are not neighbors; ")?;
    push_address(&mut text, Addr(router.0))?;
    push_those(alloc, &mut text, &found)?;
    Ok(text)
}

/// In place of an address that a router does not have: the nearest of those that are sought.
fn address_hint<A: Allocator + Copy>(
    alloc: A,
    database: &Database<A>,
    what: Sought,
    router: RouterId,
    address: Addr,
) -> Result<Vec<u8, A>, AllocError>
    ensures { IfOk result (λ text. text.items
        ≡ address_hint what (lists_of database.now) router address) }
{
    let those = what.of_router(alloc, database, router)?;
    let mut text = Vec::new(alloc);
    push_address(&mut text, Addr(router.0))?;
    push_nearest(alloc, &mut text, " has no such link", address.0, &those)?;
    Ok(text)
}

/// In place of the far end of interfaces of a router, where it has none there.
fn far_hint<A: Allocator + Copy>(
    alloc: A,
    database: &Database<A>,
    router: RouterId,
    far: Addr,
) -> Result<Vec<u8, A>, AllocError>
    ensures { IfOk result (λ text. text.items ≡ far_hint (lists_of database.now) router far) }
{
    let area = area_with(alloc, database, RouterId(far.0))?;
    if area.is_some() {
        return neighbors_hint(alloc, database, router, far);
    }
    address_hint(alloc, database, Sought::Addresses, router, far)
}

/// Of an event of one router.
fn one_router_advice<A: Allocator + Copy>(
    alloc: A,
    database: &Database<A>,
    router: RouterId,
    why: EditFault,
) -> Result<Advice<A>, AllocError>
    ensures { IfOk result (λ it. it ≡ one_router_advice (lists_of database.now) router why) }
{
    match why {
        EditFault::NoRouter => Ok(Advice::at(1, anywhere_hint(alloc, database, router)?)),
        EditFault::KeyTaken => Advice::of(
            alloc,
            1,
            "the next Designated Router has a network-LSA with that address",
        ),
        _ => limit_advice(alloc, why),
    }
}

/// Of a router that leaves a network.
fn leave_advice<A: Allocator + Copy>(
    alloc: A,
    database: &Database<A>,
    router: RouterId,
    why: EditFault,
) -> Result<Advice<A>, AllocError>
    ensures { IfOk result (λ it. it ≡ leave_advice (lists_of database.now) router why) }
{
    match why {
        EditFault::NotOnNetwork => Ok(Advice::at(2, networks_hint(alloc, database, router)?)),
        _ => one_router_advice(alloc, database, router, why),
    }
}

/// Of two routers the first that no area has.
fn either_advice<A: Allocator + Copy>(
    alloc: A,
    database: &Database<A>,
    router: RouterId,
    neighbor: RouterId,
) -> Result<Advice<A>, AllocError>
    ensures { IfOk result (λ it. it ≡ either_advice (lists_of database.now) router neighbor) }
{
    let area = area_with(alloc, database, router)?;
    if area.is_some() {
        return Ok(Advice::at(2, anywhere_hint(alloc, database, neighbor)?));
    }
    Ok(Advice::at(1, anywhere_hint(alloc, database, router)?))
}

/// Of an event of two routers, the second by its Router ID.
fn two_routers_advice<A: Allocator + Copy>(
    alloc: A,
    database: &Database<A>,
    router: RouterId,
    other: Addr,
    why: EditFault,
) -> Result<Advice<A>, AllocError>
    ensures { IfOk result (λ it. it
        ≡ two_routers_advice (lists_of database.now) router other why) }
{
    match why {
        EditFault::NoRouter => either_advice(alloc, database, router, RouterId(other.0)),
        EditFault::SameRouter => Advice::of(alloc, 2, "name the two ends"),
        EditFault::NotNeighbors => {
            Ok(Advice::at(2, neighbors_hint(alloc, database, router, other)?))
        }
        _ => limit_advice(alloc, why),
    }
}

/// Of one link of two routers that is cut.
fn cut_advice<A: Allocator + Copy>(
    alloc: A,
    database: &Database<A>,
    router: RouterId,
    neighbor: RouterId,
    address: Addr,
    why: EditFault,
) -> Result<Advice<A>, AllocError>
    ensures { IfOk result (λ it. it
        ≡ cut_advice (lists_of database.now) router neighbor address why) }
{
    match why {
        EditFault::NoInterface => {
            let what = Sought::AddressesTo(neighbor);
            Ok(Advice::at(3, address_hint(alloc, database, what, router, address)?))
        }
        EditFault::UnclearEnd => Advice::of(alloc, 3, "several links look the same: cut them all"),
        _ => two_routers_advice(alloc, database, router, Addr(neighbor.0), why),
    }
}

/// Of interfaces that get a cost.
fn cost_advice<A: Allocator + Copy>(
    alloc: A,
    database: &Database<A>,
    router: RouterId,
    far: Addr,
    why: EditFault,
) -> Result<Advice<A>, AllocError>
    ensures { IfOk result (λ it. it ≡ cost_advice (lists_of database.now) router far why) }
{
    match why {
        EditFault::NoInterface => Ok(Advice::at(2, far_hint(alloc, database, router, far)?)),
        EditFault::ZeroCost => Advice::of(alloc, 3, "a link of this type costs 1 to 65535"),
        _ => two_routers_advice(alloc, database, router, far, why),
    }
}

/// Which word of an event is at fault, and what would have been right, by the database that refuses
/// it and by the reason.
pub(crate) fn event_advice<A: Allocator + Copy>(
    alloc: A,
    database: &Database<A>,
    event: Event,
    why: EditFault,
) -> Result<Advice<A>, AllocError>
    ensures { IfOk result (λ it. it ≡ event_advice (lists_of database.now) event why) }
{
    match event {
        Event::Cut {
            router,
            neighbor,
            address: None,
        } => two_routers_advice(alloc, database, router, Addr(neighbor.0), why),
        Event::Cut {
            router,
            neighbor,
            address: Some(address),
        } => cut_advice(alloc, database, router, neighbor, address, why),
        Event::Leave { router, .. } => leave_advice(alloc, database, router, why),
        Event::SetCost { router, far, .. } => cost_advice(alloc, database, router, far, why),
        Event::Drain { router } | Event::Fail { router } => {
            one_router_advice(alloc, database, router, why)
        }
    }
}

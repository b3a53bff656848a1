//! Changes of the cost of one interface of a router, as its router-LSA shows them.

ghost use Rattle.std.specs.Prelude.{◌≡◌, IfSome};
ghost use Rattle.std.specs.Bool.{OnTrue};
ghost use Rattle.std.specs.List.{AllZip};
ghost use Rattle.area_graph.specs.CostChanges.{IsChangedLink, IsChangedLsa, changed_metric, is_over};

use crate::naming::target_of;
use crate::vertex::Vertex;
use lsa_codec::{Addr, Link, Links, Lsa, RouterId};
use std::alloc::Allocator;

/// A change of the cost of a router's interface (RFC 2328, 2.1 and C.3): the metric of the links of
/// its router-LSA that lead to one vertex with one Link Data.
#[derive(Clone, Copy, Debug)]
pub struct CostChange {
    /// The router.
    pub from: RouterId,
    /// The vertex that the links lead to.
    pub to: Vertex,
    /// The Link Data of the links.
    pub link_data: Addr,
    /// The new metric.
    pub cost: u16,
}

impl CostChange {
    /// The change that makes one router-LSA another, where there is one: only the metric of such
    /// links differs, and fields that routes do not depend on, such as the sequence number. `None`
    /// allows no conclusion. It takes no memory.
    pub fn between<A: Allocator + Copy>(before: &Lsa<A>, after: &Lsa<A>) -> Option<CostChange>
        ensures { IfSome result (λ change. IsChangedLsa change before.now after.now) }
    {
        let (Some(old), Some(new)) = (before.router(), after.router()) else {
            return None;
        };
        let key = before.key();
        if after.key() != key || after.at_max_age() != before.at_max_age() {
            return None;
        }
        let change = first_change(RouterId(key.id.0), old.links(), new.links())?;
        if !are_changed_links(change, old.links(), new.links()) {
            return None;
        }
        Some(change)
    }
}

/// The change of a router's cost that the first links with different metrics show.
fn first_change(from: RouterId, mut olds: Links<'_>, mut news: Links<'_>) -> Option<CostChange>
    ensures { IfSome result (λ change. change.from ≡ from) }
{
    while let Some(old) = olds.next() {
        let new = news.next()?;
        if new.metric != old.metric {
            return Some(CostChange {
                from,
                to: target_of(new)?,
                link_data: new.link_data,
                cost: new.metric,
            });
        }
    }
    None
}

/// Whether a link of the router leads to the vertex over the interface.
fn is_over(change: CostChange, link: Link) -> bool
    ensures { result ≡ is_over change link }
{
    match target_of(link) {
        Some(to) => to == change.to && link.link_data == change.link_data,
        None => false,
    }
}

/// The metric of a link after a change.
fn changed_metric(change: CostChange, link: Link) -> u16
    ensures { result ≡ changed_metric change link }
{
    if is_over(change, link) {
        change.cost
    } else {
        link.metric
    }
}

/// Whether a link is the same before and after a change, except for the metric of a link over the
/// interface.
fn is_changed_link(change: CostChange, old: Link, new: Link) -> bool
    ensures { OnTrue result (IsChangedLink change old new) }
{
    new.kind == old.kind
        && new.id == old.id
        && new.link_data == old.link_data
        && new.metric == changed_metric(change, old)
}

/// Whether all links of a router are the same in this sense, one by one.
fn are_changed_links(change: CostChange, mut olds: Links<'_>, mut news: Links<'_>) -> bool
    ensures { OnTrue result (AllZip (IsChangedLink change) olds.entry news.entry) }
{
    while let Some(old) = olds.next() {
        let Some(new) = news.next() else {
            return false;
        };
        if !is_changed_link(change, old, new) {
            return false;
        }
    }
    news.next().is_none()
}

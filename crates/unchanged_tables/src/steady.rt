//! Router-LSAs before and after a change of metrics over which no path of least cost leads.

ghost use Rattle.std.specs.Prelude.{◌≡◌, ◌<◌, ◌^◌, ◌+◌, IfSome, IsSomeAnd};
ghost use Rattle.std.specs.Bool.{OnTrue};
ghost use Rattle.std.specs.List.{AllZip};
ghost use Rattle.area_graph.specs.AreaEdges.{target_of};
ghost use Rattle.unchanged_tables.specs.ByTree.{distances_by};
ghost use Rattle.unchanged_tables.specs.Slack.{IsSlackLink, IsSteadyLink, IsSteadyLsa};

use crate::distances::DistancesFrom;
use area_graph::Vertex;
use lsa_codec::{Link, LinkKind, Links, Lsa, RouterId};
use std::alloc::Allocator;

/// The vertex that a link leads to.
fn target_of(link: Link) -> Option<Vertex>
    ensures { result ≡ target_of link }
{
    match link.kind {
        LinkKind::PointToPoint => Some(Vertex::Router(RouterId(link.id.0))),
        LinkKind::Transit => Some(Vertex::Network(link.id)),
        _ => None,
    }
}

/// Whether no path of least cost leads over an edge, by the distances of its start and of its end.
fn is_slack(near: Option<u64>, far: Option<u64>, cost: u16) -> bool
    requires { IfSome near (λ d. d < 2 ^ 32) }
    ensures { OnTrue result (IfSome near (λ from. IsSomeAnd far (λ to. to < from + cost))) }
{
    match (near, far) {
        (None, _) => true,
        (Some(_), None) => false,
        (Some(near), Some(far)) => far < near + u64::from(cost),
    }
}

/// Whether a link leads to a vertex, and no path of least cost leads over it.
fn is_slack_link<A: Allocator + Copy>(
    distances: &DistancesFrom<'_, A>,
    from: Vertex,
    link: Link,
) -> bool
    ensures { OnTrue result (IsSlackLink (distances_by distances.now) from link) }
{
    let Some(to) = target_of(link) else {
        return false;
    };
    let (Some(near), Some(far)) = (distances.to(from), distances.to(to)) else {
        return false;
    };
    is_slack(near, far, link.metric)
}

/// Whether a link after a change is the same as before, except for its metric where the link is
/// slack before and after.
fn is_steady_link<A: Allocator + Copy>(
    distances: &DistancesFrom<'_, A>,
    from: Vertex,
    old: Link,
    new: Link,
) -> bool
    ensures { OnTrue result (IsSteadyLink (distances_by distances.now) from old new) }
{
    if new.kind != old.kind || new.id != old.id || new.link_data != old.link_data {
        return false;
    }
    if new.metric == old.metric {
        return true;
    }
    is_slack_link(distances, from, old) && is_slack_link(distances, from, new)
}

/// Whether all links of a router are steady in this sense, one by one.
fn are_steady_links<A: Allocator + Copy>(
    distances: &DistancesFrom<'_, A>,
    from: Vertex,
    mut olds: Links<'_>,
    mut news: Links<'_>,
) -> bool
    ensures { OnTrue result (AllZip (IsSteadyLink (distances_by distances.now) from)
        olds.entry news.entry) }
{
    while let Some(old) = olds.next() {
        let Some(new) = news.next() else {
            return false;
        };
        if !is_steady_link(distances, from, old, new) {
            return false;
        }
    }
    news.next().is_none()
}

/// Whether a router-LSA after a change is the same as before, as far as routes go, except for
/// metrics of links that are slack before and after.
pub(crate) fn is_steady_lsa<A: Allocator + Copy>(
    distances: &DistancesFrom<'_, A>,
    old: &Lsa<A>,
    new: &Lsa<A>,
) -> bool
    ensures { OnTrue result (IsSteadyLsa (distances_by distances.now) old.now new.now) }
{
    let (Some(before), Some(after)) = (old.router(), new.router()) else {
        return false;
    };
    let key = old.key();
    if new.key() != key || new.at_max_age() != old.at_max_age() {
        return false;
    }
    let from = Vertex::Router(RouterId(key.id.0));
    before.flags() == after.flags()
        && are_steady_links(distances, from, before.links(), after.links())
}

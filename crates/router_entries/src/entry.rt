//! Entries: what a router uses for a prefix.

ghost use Rattle.std.specs.Prelude.{◌≡◌};
ghost use Rattle.best_ways.specs.declared.rank.PathType.TheVariants.{Ext2};
ghost use Rattle.router_entries.specs.Entries.{kind_of, metric_by, own_external, route_entry};

use best_ways::{PathType, Route};
use lsa_codec::AreaId;
use next_hops::Hop;
use std::alloc::Allocator;
use std::marker::Model;
use study_words::RouteKind;

/// What a router uses for a prefix: a route of its table, or an external prefix that it announces
/// itself.
#[derive(Drop)]
pub struct Entry<'a> {
    /// The kind of the route.
    pub kind: RouteKind,
    /// The metric of an external route with a metric of type 2, and 0 for other entries.
    pub metric: u32,
    /// The cost, without that metric, and 0 for an external prefix of the router itself.
    pub cost: u64,
    /// The least area that the paths lead through; none for an external route.
    pub area: Option<AreaId>,
    /// The next hops; none for an external prefix of the router itself.
    pub hops: &'a [Hop],
}

impl<'a> Model for Entry<'a> {
    ghost use Rattle.router_entries.specs.Entries.{EntryValue};

    ghost Value = { EntryValue };

    ghost view = { λ e. record {
      kind = e.kind;
      metric = e.metric;
      cost = e.cost;
      area = e.area;
      hops = e.hops.now;
    } };
}

/// The kind of routes whose paths have a type.
fn kind_of(path: PathType) -> RouteKind
    ensures { result ≡ kind_of path }
{
    match path {
        PathType::Intra => RouteKind::Intra,
        PathType::Inter => RouteKind::Inter,
        PathType::Ext1 => RouteKind::External1,
        PathType::Ext2 => RouteKind::External2,
    }
}

/// The metric of type 2 of a route with this number in its place, by the type of its paths.
fn metric_by(path: PathType, metric: u32) -> u32
    ensures { result ≡ metric_by path metric }
{
    match path {
        PathType::Ext2 => metric,
        PathType::Intra | PathType::Inter | PathType::Ext1 => 0,
    }
}

impl<'a> Entry<'a> {
    /// The entry for an external prefix of the router itself. Its metric is of no LSA that the
    /// router uses, so all such entries are the same.
    pub fn own_external() -> Entry<'a>
        ensures { result ≡ own_external }
    {
        Entry {
            kind: RouteKind::Own,
            metric: 0,
            cost: 0,
            area: None,
            hops: &[],
        }
    }

    /// The entry by a route of the router's table.
    pub fn of_route<A: Allocator + Copy>(route: &'a Route<A>) -> Entry<'a>
        ensures { result ≡ route_entry route.now }
    {
        Entry {
            kind: kind_of(route.kind),
            metric: metric_by(route.kind, route.cost2),
            cost: route.cost,
            area: route.areas.as_slice().first().copied(),
            hops: route.hops.as_slice(),
        }
    }
}

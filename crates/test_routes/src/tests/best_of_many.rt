//! The best of many candidates, their order, and their law.

use super::texts::hops_text;
use area_routes::{BestWays, PathType, Rank, Way, rank_order, ways_are_best};
use lsa_codec::{Addr, AreaId};
use next_hops::Hop;
use std::alloc::Global;
use std::test::*;

fn rank(path: PathType, cost2: u32, class: u8, cost: u64) -> Rank {
    Rank {
        path,
        cost2,
        class,
        cost,
    }
}

/// Paths inside the AS and of both types, the better first.
const RANKS: &[(PathType, u32, u8, u64)] = &[
    (PathType::Intra, 0, 0, 900),
    (PathType::Inter, 0, 0, 800),
    (PathType::Ext1, 0, 0, 700),
    (PathType::Ext1, 0, 1, 600),
    (PathType::Ext2, 20, 0, 50),
    (PathType::Ext2, 20, 1, 10),
    (PathType::Ext2, 20, 1, 11),
    (PathType::Ext2, 21, 0, 1),
];

/// The rank of the path at a place.
fn rank_at(place: usize) -> Option<Rank> {
    let (path, cost2, class, cost) = RANKS.get(place).copied()?;
    Some(rank(path, cost2, class, cost))
}

/// Whether the rank at a place is before the next one.
fn is_before_next(place: usize) -> bool {
    rank_order();
    match (rank_at(place), rank_at(place.wrapping_add(1))) {
        (Some(one), Some(next)) => one < next,
        _ => false,
    }
}

/// Type 1 before type 2; of type 2 the smaller metric, then the smaller class, then the smaller
/// cost (RFC 2328, 16.4).
#[test]
fn ranks_in_order(rt: HostRuntime) -> Result<(), Fail> {
    for place in 0..7 {
        assert!(rt; is_before_next(place), "at {place}");
    }
    assert!(rt; !is_before_next(7));
    Ok(())
}

/// Ways, one a line: key, rank, areas and hops.
fn ways_text(alloc: Global, ways: &[(u8, Way)]) -> Result<String, Fail> {
    let mut text = String::new(alloc);
    for (key, way) in ways {
        let rank = way.rank();
        let (path, cost2, class, cost) = (rank.path, rank.cost2, rank.class, rank.cost);
        text.push_str(&format!(in alloc; "{key} {path:?} {cost2} {class} {cost}")?)?;
        for area in way.areas.as_slice() {
            text.push_str(&format!(in alloc; " {area}")?)?;
        }
        text.push_str(&hops_text(alloc, way.hops.as_slice())?)?;
        text.push_str("\n")?;
    }
    Ok(text)
}

/// The best ways of candidates: each has a key, the cost of an inter-area path, perhaps an area,
/// and hops.
fn best_of(
    alloc: Global,
    candidates: &[(u8, u64, Option<AreaId>, &[Hop])],
) -> Result<String, Fail> {
    ways_are_best::<u8>();
    let mut ways = BestWays::new(alloc);
    for (key, cost, area, hops) in candidates {
        ways.add_candidate(*key, rank(PathType::Inter, 0, 0, *cost), *area, hops)?;
    }
    ways_text(alloc, &ways.into_list(alloc)?)
}

const LEFT: Hop = Hop::Link(Addr(1));

const RIGHT: Hop = Hop::Link(Addr(2));

const CANDIDATES: &[(u8, u64, Option<AreaId>, &[Hop])] = &[
    (7, 30, Some(AreaId(9)), &[Hop::Connected]),
    (7, 20, Some(AreaId(2)), &[RIGHT]),
    (3, 30, None, &[LEFT]),
    (7, 20, Some(AreaId(1)), &[LEFT, RIGHT]),
    (7, 30, Some(AreaId(3)), &[Hop::Connected]),
];

#[test]
fn least_ways_are_joined(rt: HostRuntime) -> Result<(), Fail> {
    let expected = "3 Inter 0 0 30 link:0.0.0.1\n\
        7 Inter 0 0 20 0.0.0.1 0.0.0.2 link:0.0.0.1 link:0.0.0.2\n";
    assert_eq!(rt; best_of(rt.alloc(), CANDIDATES)?.as_str(), expected);
    Ok(())
}

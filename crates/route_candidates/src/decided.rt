//! Candidates that are compared with each other.

ghost use Rattle.std.specs.Prelude.{◌≡◌, ◌∷◌, [], IfOk, Some};
ghost use Rattle.std.specs.List.{filter_map};
ghost use Rattle.area_graph.specs.Least.{least, later};
ghost use Rattle.best_ways.specs.Order.{path_number, rank_cmp};
ghost use Rattle.area_candidates.specs.Drafts.{left_rank};
ghost use Rattle.route_candidates.specs.Decided.{best, costs_more, decided, decided_by, has_left, is_best, rule_beside, rule_by, rule_of};

use crate::candidate::Candidate;
use area_candidates::{Draft, Rule, Standing, left_rank};
use area_routes::{PathType, Rank, rank_order};
use std::alloc::{AllocError, Allocator};
use std::cmp::Ordering;

/// The lesser of the best rank so far and another one.
fn lesser(best: Option<Rank>, rank: Rank) -> Rank
    ensures { result ≡ later rank_cmp best rank }
{
    rank_order();
    match best {
        Some(best) if rank.cmp(&best) != Ordering::Less => best,
        _ => rank,
    }
}

/// The least of some ranks.
fn least(ranks: &[Rank]) -> Option<Rank>
    ensures { result ≡ least rank_cmp ranks.now }
{
    rank_order();
    let mut best = None;
    for rank in ranks {
        best = Some(lesser(best, *rank));
    }
    best
}

/// What those are compared by that no rule takes out.
fn left_ranks<A: Allocator + Copy>(alloc: A, drafts: &[Draft]) -> Result<Vec<Rank, A>, AllocError>
    ensures { IfOk result (λ ranks. ranks.items ≡ filter_map left_rank drafts.now) }
{
    drafts
        .iter()
        .filter_map(|draft| left_rank(draft))
        .collect(alloc)
}

/// Whether a candidate is left, so that the best are used.
pub(crate) fn has_left(drafts: &[Draft]) -> bool
    ensures { result ≡ has_left drafts.now }
{
    drafts.iter().any(|draft| left_rank(draft).is_some())
}

/// A number for each type of paths.
fn path_number(path: PathType) -> u8
    ensures { result ≡ path_number path }
{
    match path {
        PathType::Intra => 0,
        PathType::Inter => 1,
        PathType::Ext1 => 2,
        PathType::Ext2 => 3,
    }
}

/// The rule that takes out what costs more, for paths of this type.
fn costs_more(path: PathType) -> Rule
    ensures { result ≡ costs_more path }
{
    match path {
        PathType::Intra => Rule::IntraCostsMore,
        PathType::Inter => Rule::InterCostsMore,
        PathType::Ext1 | PathType::Ext2 => Rule::ExternalCostsMore,
    }
}

/// The rule by which the best are used, for paths of this type.
fn is_best(path: PathType) -> Rule
    ensures { result ≡ is_best path }
{
    match path {
        PathType::Intra => Rule::IntraLeastCost,
        PathType::Inter => Rule::InterLeastCost,
        PathType::Ext1 | PathType::Ext2 => Rule::ExternalPreferred,
    }
}

/// The rule of a candidate that is left, beside the best (RFC 2328, 16.4 (6)).
fn rule_beside(best: Rank, rank: Rank) -> Rule
    ensures { result ≡ rule_beside best rank }
{
    if path_number(best.path) != path_number(rank.path) {
        Rule::Type1Preferred
    } else if best.cost2 != rank.cost2 {
        Rule::GreaterMetric
    } else if best.class != rank.class {
        Rule::OtherClass
    } else if best.cost != rank.cost {
        costs_more(rank.path)
    } else {
        is_best(rank.path)
    }
}

/// The rule of a candidate that is left.
fn rule_by(best: Option<Rank>, rank: Rank) -> Rule
    ensures { result ≡ rule_by best rank }
{
    match best {
        Some(best) => rule_beside(best, rank),
        None => is_best(rank.path),
    }
}

/// The rule of a candidate, where this is the best of what is left.
fn rule_of(best: Option<Rank>, standing: Standing) -> Rule
    ensures { result ≡ rule_of best standing }
{
    match standing {
        Standing::Out(rule) => rule,
        Standing::Left(rank) => rule_by(best, rank),
    }
}

/// A candidate with its rule.
fn decided_by(best: Option<Rank>, draft: &Draft) -> Candidate
    ensures { result ≡ decided_by best draft.now }
{
    Candidate {
        lsa: draft.lsa,
        link: draft.link,
        distance: draft.judged.distance,
        metric: draft.metric,
        rule: rule_of(best, draft.judged.standing),
    }
}

/// Candidates of one section of RFC 2328, each with its rule: of those that no rule takes out, the
/// best are used.
///
/// # Errors
///
/// Memory ran out.
pub(crate) fn decided<A: Allocator + Copy>(
    alloc: A,
    drafts: &[Draft],
) -> Result<Vec<Candidate, A>, AllocError>
    ensures { IfOk result (λ found. found.items ≡ decided drafts.now) }
{
    let ranks = left_ranks(alloc, drafts)?;
    let best = least(&ranks);
    drafts
        .iter()
        .map(|draft| decided_by(best, draft))
        .collect(alloc)
}

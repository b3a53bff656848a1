//! Candidates before they are compared with others.

ghost use Rattle.std.specs.Prelude.{◌≡◌, None, Some};
ghost use Rattle.area_candidates.specs.Drafts.{costing, left, left_rank, out, out_at};

use crate::rule::Rule;
use best_ways::{PathType, Rank};
use lsa_names::LsaName;

/// What the rules that look at one candidate alone say of it.
#[derive(Clone, Copy, Debug)]
pub enum Standing {
    /// A rule takes it out.
    Out(Rule),
    /// None does, and this is what it is compared by.
    Left(Rank),
}

/// The distance of a candidate, if it is known, and its standing.
#[derive(Clone, Copy, Debug)]
pub struct Judged {
    /// The distance of a network, of a router or of an AS boundary router, if it is known.
    pub distance: Option<u64>,
    /// Whether a rule takes the candidate out.
    pub standing: Standing,
}

/// A candidate that is not yet compared with others.
#[derive(Clone, Copy, Debug)]
pub struct Draft {
    /// The LSA.
    pub lsa: LsaName,
    /// The number of the link of a router-LSA, counted from 1.
    pub link: Option<u16>,
    /// The metric of the link or the LSA; 0 of a network.
    pub metric: u32,
    /// What the rules say of it.
    pub judged: Judged,
}

impl Judged {
    /// Taken out before its distance is known.
    pub fn out(rule: Rule) -> Judged
        ensures { result ≡ out rule }
    {
        Judged {
            distance: None,
            standing: Standing::Out(rule),
        }
    }

    /// Taken out, at a distance.
    pub fn out_at(distance: u64, rule: Rule) -> Judged
        ensures { result ≡ out_at distance rule }
    {
        Judged {
            distance: Some(distance),
            standing: Standing::Out(rule),
        }
    }

    /// Taken out by no rule.
    pub fn left(distance: u64, rank: Rank) -> Judged
        ensures { result ≡ left distance rank }
    {
        Judged {
            distance: Some(distance),
            standing: Standing::Left(rank),
        }
    }
}

/// What a path inside the AS is compared by.
pub(crate) fn costing(path: PathType, cost: u64) -> Rank
    ensures { result ≡ costing path cost }
{
    Rank {
        path,
        cost2: 0,
        class: 0,
        cost,
    }
}

/// What a candidate is compared by, if no rule takes it out.
pub fn left_rank(draft: &Draft) -> Option<Rank>
    ensures { result ≡ left_rank draft.now }
{
    match draft.judged.standing {
        Standing::Out(_) => None,
        Standing::Left(rank) => Some(rank),
    }
}

ghost use Rattle.std.specs.Prelude.{◌≡◌, ◌+◌, ◌<◌, ◌≤◌, ◌↔◌, true, IsNone, IfSome};

use std::cell::Cell;

/// A limit, and how much of it is spent.
///
/// The limit never changes, so clauses refer to it. No clause can refer to the contents of a cell,
/// so none refers to what is spent.
#[derive(Drop)]
pub(crate) struct Allowance {
    limit: u64,
    spent: Cell<u64>,
}

impl Allowance {
    /// An allowance of which nothing is spent.
    pub(crate) fn new(limit: u64) -> Allowance
        ensures limit { result.limit ≡ limit }
    {
        Allowance {
            limit,
            spent: Cell::new(0),
        }
    }

    /// Spends one, and returns whether one was left.
    pub(crate) fn spend(&self) -> bool
        ensures granted { result ≡ true → 0 < self.now.limit }
    {
        let Some(spent) = after_one(self.spent.get(), self.limit) else {
            return false;
        };
        self.spent.set(spent);
        true
    }

    /// Sets how much is left, at most the limit.
    pub(crate) fn set_remaining(&self, remaining: u64) {
        self.spent.set(self.limit.saturating_sub(remaining));
    }

    /// How much of the limit is not spent.
    pub(crate) fn remaining(&self) -> u64
        ensures within { result ≤ self.now.limit }
    {
        self.limit.saturating_sub(self.spent.get())
    }
}

/// What is spent after one more, or `None` where that would exceed `limit`.
fn after_one(spent: u64, limit: u64) -> Option<u64>
    ensures none_left { IsNone result ↔ (limit ≤ spent) }
    ensures one_more { IfSome result (λ after. after ≡ spent + 1) }
{
    if spent < limit { Some(spent + 1) } else { None }
}

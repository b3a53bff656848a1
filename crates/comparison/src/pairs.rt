//! What routers have lost.

ghost use Rattle.std.specs.Prelude.{◌≡◌, map, IfOk};
ghost use Rattle.lost_routes.specs.LostPairs.{lost_pairs};
ghost use Rattle.comparison.specs.Named.{gone, lost, pair_of};

use crate::comparison::Comparison;
use change_lines::Pair;
use lost_routes::{LostPairs, RouterPrefix};
use std::alloc::{AllocError, Allocator};

/// Pairs as lines name them.
fn pairs_of<A: Allocator + Copy>(
    alloc: A,
    pairs: &[RouterPrefix],
) -> Result<Vec<Pair, A>, AllocError>
    ensures { IfOk result (λ found. found.items ≡ map pair_of pairs.now) }
{
    let pairs = pairs.iter().map(|pair| Pair {
        router: pair.router,
        net: pair.net,
    });
    pairs.collect(alloc)
}

impl<'a, A: Allocator + Copy> Comparison<'a, A> {
    /// What all routers have lost that are attached in both databases.
    fn lost_pairs(&self, alloc: A) -> Result<LostPairs<A>, AllocError>
        ensures { IfOk result (λ found. found ≡ lost_pairs self.now.baseline self.now.present) }
    {
        LostPairs::of(
            alloc,
            self.was_announced(),
            self.is_announced(),
            self.were(),
            self.are(),
        )
    }

    /// The routers with prefixes that they have no entry for any more, though somebody announces
    /// them: by router, then by prefix.
    ///
    /// # Errors
    ///
    /// Memory ran out.
    pub fn lost(&self, alloc: A) -> Result<Vec<Pair, A>, AllocError>
        ensures { IfOk result (λ pairs. pairs.items ≡ lost self.now) }
    {
        let found = self.lost_pairs(alloc)?;
        pairs_of(alloc, found.lost())
    }

    /// The routers with prefixes that they have no entry for any more, since nobody announces them:
    /// by router, then by prefix.
    ///
    /// # Errors
    ///
    /// Memory ran out.
    pub fn gone(&self, alloc: A) -> Result<Vec<Pair, A>, AllocError>
        ensures { IfOk result (λ pairs. pairs.items ≡ gone self.now) }
    {
        let found = self.lost_pairs(alloc)?;
        pairs_of(alloc, found.gone())
    }
}

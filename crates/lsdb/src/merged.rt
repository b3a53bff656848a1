//! Two lists in rising order, read as one.

ghost use Rattle.std.specs.Prelude.{◌≡◌, true};
ghost use Rattle.std.specs.Iterator.{YieldsFirst, item_count};
ghost use Rattle.std.specs.Set.{sorted_merge};

use std::cmp::Ordering;
use std::marker::Model;

/// The items of two lists in rising order, each once, an iterator. Contracts see it as the list of
/// the items left.
#[derive(Drop)]
pub struct Merged<'a, T: Ord + Copy> {
    older: &'a [T],
    latest: &'a [T],
}

impl<'a, T: Ord + Copy> Model for Merged<'a, T> {
    ghost use Rattle.std.specs.Prelude.{List, true};
    ghost use Rattle.std.specs.Set.{sorted_merge};

    ghost Value = { List T };

    ghost view = { λ m. sorted_merge T.cmp true m.older.now m.latest.now };
}

impl<'a, T: Ord + Copy> Merged<'a, T> {
    /// The items of these two lists.
    pub(crate) fn of(older: &'a [T], latest: &'a [T]) -> Merged<'a, T>
        ensures { result ≡ sorted_merge T.cmp true older.now latest.now }
    {
        Merged { older, latest }
    }

    /// How many items are left at most: one that stands in both lists is counted twice.
    pub fn upper_bound(&self) -> usize {
        self.older.len().saturating_add(self.latest.len())
    }
}

impl<'a, T: Ord + Copy> Iterator for Merged<'a, T> {
    type Item = T;

    ghost next_gives = { YieldsFirst (λ s. s) };

    ghost remaining = { item_count (λ s. s) };

    fn next(&mut self) -> Option<T> {
        let Some((first, older)) = self.older.split_first() else {
            let (first, latest) = self.latest.split_first()?;
            self.latest = latest;
            return Some(*first);
        };
        let Some((second, latest)) = self.latest.split_first() else {
            self.older = older;
            return Some(*first);
        };
        match first.cmp(second) {
            Ordering::Less => {
                self.older = older;
                Some(*first)
            }
            Ordering::Equal => {
                self.older = older;
                self.latest = latest;
                Some(*first)
            }
            Ordering::Greater => {
                self.latest = latest;
                Some(*second)
            }
        }
    }
}

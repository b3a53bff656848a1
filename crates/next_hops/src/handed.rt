//! The lists of hops that a vertex received.

ghost use Rattle.std.specs.Prelude.{[], ◌∷◌, IfOk, OnOk};
ghost use Rattle.next_hops.specs.steps.Handed.{Adds, numbers_in};

use std::alloc::{AllocError, Allocator};

/// The numbers of the lists that a vertex received so far, several in rising order. Its hops are
/// those of all these lists.
#[derive(Drop)]
pub(crate) enum Handed<A: Allocator> {
    Nothing,
    One(usize),
    Several(Vec<usize, A>),
}

impl<A: Allocator + Copy> Handed<A> {
    /// Adds the number of a list, unless it is there.
    pub(crate) fn add(&mut self, alloc: A, number: usize) -> Result<(), AllocError>
        ensures { OnOk result (Adds number (numbers_in self.old) (numbers_in self.new)) }
    {
        match self {
            Handed::Nothing => *self = Handed::One(number),
            Handed::One(only) => {
                let only = *only;
                if only != number {
                    *self = Handed::Several(both(alloc, only, number)?);
                }
            }
            Handed::Several(numbers) => insert(numbers, number)?,
        }
        Ok(())
    }
}

/// Two numbers in rising order.
fn both<A: Allocator + Copy>(
    alloc: A,
    one: usize,
    other: usize,
) -> Result<Vec<usize, A>, AllocError>
    ensures { IfOk result (λ both. Adds other (one ∷ []) both.items) }
{
    let mut both = Vec::new(alloc);
    both.push(one)?;
    insert(&mut both, other)?;
    Ok(both)
}

/// Puts a number at its place among others in rising order, unless it is there.
fn insert<A: Allocator + Copy>(numbers: &mut Vec<usize, A>, number: usize) -> Result<(), AllocError>
    ensures { OnOk result (Adds number numbers.old.items numbers.new.items) }
{
    if let Err(place) = numbers.binary_search(&number) {
        numbers.insert(place, number)?;
    }
    Ok(())
}

//! Router entries.

ghost use Rattle.std.specs.Prelude.{◌≡◌, ◌<◌, ◌^◌, ◌++◌, ◌∷◌, [], OnErr, OnOk};
ghost use Rattle.area_routes.specs.Values.{EntriesBelow};

use crate::entry::RouterEntry;
use std::alloc::{AllocError, Allocator, Global};
use std::marker::Model;

/// The router entries of a router. Contracts see them as this list.
///
/// Each cost is below 2^34: the cost within an area is below 2^32, and a summary-LSA adds less than
/// 2^24.
#[derive(Drop)]
pub struct RouterEntries<A: Allocator = Global> {
    entries: Vec<RouterEntry<A>, A>,
}

impl<A: Allocator> Model for RouterEntries<A> {
    ghost use Rattle.std.specs.Prelude.{List, ◌^◌};
    ghost use Rattle.area_routes.specs.Values.{EntriesBelow, EntryValue};

    ghost Value = { List EntryValue };

    ghost view = { λ e. e.entries.items };

    ghost invariant = { λ e. EntriesBelow (2 ^ 34) e.entries.items };
}

impl<A: Allocator + Copy> RouterEntries<A> {
    /// No entries. It takes no memory.
    pub fn new(alloc: A) -> RouterEntries<A>
        ensures { result ≡ [] }
    {
        RouterEntries {
            entries: Vec::new(alloc),
        }
    }

    /// Entries whose costs are all below 2^34.
    pub(crate) fn from_vec(entries: Vec<RouterEntry<A>, A>) -> RouterEntries<A>
        requires { EntriesBelow (2 ^ 34) entries.items }
        ensures { result ≡ entries.items }
    {
        RouterEntries { entries }
    }

    /// Adds an entry.
    ///
    /// # Errors
    ///
    /// Memory ran out; the list is as before.
    pub fn push(&mut self, entry: RouterEntry<A>) -> Result<(), AllocError>
        requires { entry.cost < 2 ^ 34 }
        ensures pushed { OnOk result (self.new ≡ self.old ++ entry ∷ []) }
        ensures same { OnErr result (self.new ≡ self.old) }
    {
        self.entries.push(entry)?;
        Ok(())
    }

    /// The entries.
    pub fn as_slice(&self) -> &[RouterEntry<A>]
        ensures entries { result.now ≡ self.now }
        ensures small { EntriesBelow (2 ^ 34) result.now }
    {
        self.entries.as_slice()
    }
}

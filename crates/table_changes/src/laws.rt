//! Laws: what holds of the definitions that the contracts of this crate cite. Each is a function
//! that does nothing, and its contract is the law.

ghost use Rattle.std.specs.Prelude.{◌≡◌, ◌+◌, ◌↔◌, ◌⊎◌, [], IsSome, List, Option, Some, Contains, length};
ghost use Rattle.lsa_codec.specs.Prefix.{Net};
ghost use Rattle.next_hops.specs.declared.hop.Hop.{Hop};
ghost use Rattle.forwarding.specs.Matches.{RouterValue};
ghost use Rattle.router_entries.specs.Entries.{EntryValue, entry_for};
ghost use Rattle.table_changes.specs.declared.change.Change.{Change as AnyChange};
ghost use Rattle.table_changes.specs.declared.change.Change.TheVariants.{Missing, Gained, OtherKind, Costlier, Cheaper, Moved};
ghost use Rattle.table_changes.specs.Changes.{change_of, changes, changes_of, count_of, nets_of_both, unchanged};
ghost use Rattle.table_changes.specs.InWords.{AreChanges, IsChange};
ghost use Rattle.table_changes.specs.Swapping.{swapped};

/// Something differs for a prefix exactly where the words for a kind of change hold of its entries,
/// and it is of that kind: so those of no two kinds hold.
pub fn changes_in_words()
    ensures { (rerouted : List Hop) (before now : Option EntryValue) (change : AnyChange)
        → (change_of rerouted before now ≡ Some change) ↔ IsChange rerouted change before now }
{}

/// The changes are in order of prefix, each prefix once, and are exactly those for which something
/// differs.
pub fn changes_are_all()
    ensures { (rerouted : List Hop) (before now : RouterValue)
        → AreChanges rerouted before now (changes rerouted before now) }
{}

/// The numbers of changes of each kind and of prefixes without one are together the number of
/// prefixes that have an entry before or now.
pub fn counts_are_all()
    ensures nets { (before now : RouterValue) (net : Net) → Contains (nets_of_both before now) net
        ↔ (IsSome (entry_for before net) ⊎ IsSome (entry_for now net)) }
    ensures counts { (rerouted : List Hop) (before now : RouterValue)
        → let found = changes rerouted before now in
        count_of Missing found + count_of Gained found
        + count_of OtherKind found + count_of Costlier found
        + count_of Cheaper found + count_of Moved found
        + unchanged rerouted before now ≡ length (nets_of_both before now) }
{}

/// Nothing differs between entries and themselves, where their hops lead to the same routers.
pub fn same_entries_do_not_differ()
    ensures { (entries : RouterValue) → changes [] entries entries ≡ [] }
{}

/// From the other side what was missing is gained, and what costs more costs less; the rest stays.
pub fn changes_swap()
    ensures { (rerouted : List Hop) (before now : RouterValue)
        → changes_of rerouted now before ≡ swapped (changes_of rerouted before now) }
{}

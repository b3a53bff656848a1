//! Laws: what holds of the definitions that the contracts of this crate cite. Each is a function
//! that does nothing, and its contract is the law.

ghost use Rattle.std.specs.Prelude.{◌≡◌, is_some};
ghost use Rattle.std.specs.List.{list_any};
ghost use Rattle.std.specs.Option.{option_map};
ghost use Rattle.std.specs.Ordering.{eq_by_cmp};
ghost use Rattle.lsa_codec.specs.Order.{prefix_cmp};
ghost use Rattle.lsa_codec.specs.Prefix.{Net};
ghost use Rattle.lsa_codec.specs.declared.address.RouterId.{RouterId};
ghost use Rattle.lsdb.specs.Lists.{Lists};
ghost use Rattle.forwarding.specs.Matches.{MatchValue, RouterValue, entry_for as matching_entry, has_net};
ghost use Rattle.forwarding.specs.OwnExternals.{own_externals};
ghost use Rattle.router_entries.specs.Entries.{entry_for, has_entry, is_own_external, nets_of};
ghost use Rattle.router_entries.specs.OwnExternals.{own_external};

/// The entries are those of forwarding graphs: where a router has an entry there it has one here,
/// and for an external prefix of its own there, so here.
pub fn entries_match()
    ensures { (db : Lists) (r : RouterValue) (net : Net)
        → option_map (λ (m : MatchValue). m.is_own) (matching_entry db r net)
        ≡ option_map is_own_external (entry_for r net) }
{}

/// A router has an entry for a prefix exactly where packets for its addresses may match it.
pub fn entries_are_matched()
    ensures { (db : Lists) (r : RouterValue) (net : Net)
        → has_entry r net ≡ is_some (matching_entry db r net) }
{}

/// The prefixes of the entries are those that have one.
pub fn nets_have_entries()
    ensures found { (r : RouterValue) (net : Net)
        → list_any (eq_by_cmp prefix_cmp net) (nets_of r) ≡ is_some (entry_for r net) }
    ensures tested { (r : RouterValue) (net : Net) → has_entry r net ≡ is_some (entry_for r net) }
{}

/// Something is announced for a prefix exactly where it is an external prefix of the router itself.
pub fn own_externals_are_announced()
    ensures { (db : Lists) (router : RouterId) (net : Net)
        → is_some (own_external db router net) ≡ has_net (own_externals db router) net }
{}

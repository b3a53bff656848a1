//! What holds of the definitions.

ghost use Rattle.std.specs.Prelude.{◌≡◌, ◌↔◌, ◌⊎◌, [], Contains};
ghost use Rattle.lsa_codec.specs.Prefix.{Net};
ghost use Rattle.lsdb.specs.Lists.{Lists};
ghost use Rattle.forwarding.specs.Matches.{RouterValue};
ghost use Rattle.lost_routes.specs.Announced.{AnnouncedValue};
ghost use Rattle.lost_routes.specs.Lost.{lost_routes, missing};
ghost use Rattle.lost_routes.specs.LostPairs.{lost_pairs};

/// Each prefix that a router is missing is lost or gone, none is both, and no other is one of them.
pub fn missing_is_lost_or_gone()
    ensures all { (baseline now : AnnouncedValue) (was is : RouterValue) (net : Net)
        → let found = lost_routes baseline now was is in
        Contains (missing was is) net ↔ (Contains found.lost net ⊎ Contains found.gone net) }
    ensures once { (baseline now : AnnouncedValue) (was is : RouterValue) (net : Net)
        → let found = lost_routes baseline now was is in
        Contains found.lost net → ¬ Contains found.gone net }
{}

/// A router that has the same entries as in the baseline is missing nothing, and in a database that
/// is its own baseline no router has lost anything.
pub fn nothing_is_missing()
    ensures router { (r : RouterValue) → missing r r ≡ [] }
    ensures network { (db : Lists) → lost_pairs db db ≡ record { lost = []; gone = [] } }
{}

//! Laws: what holds of the definitions that the contracts of this crate cite. Each is a function
//! that does nothing, and its contract is the law.

ghost use Rattle.std.specs.Prelude.{◌≡◌, []};
ghost use Rattle.lsdb.specs.Lists.{Lists};
ghost use Rattle.lsa_differences.specs.Differences.{differences, live_of};

/// Databases with the same areas and the same live LSAs do not differ, so none differs from itself.
pub fn same_live_parts_do_not_differ()
    ensures { (baseline now : Lists) → live_of baseline ≡ live_of now
        → differences baseline now ≡ [] }
{}

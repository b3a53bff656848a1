//! What holds of the definitions.

ghost use Rattle.std.specs.Prelude.{Option};
ghost use Rattle.lsa_codec.specs.Prefix.{Net};
ghost use Rattle.lsa_codec.specs.declared.address.Addr.{Addr};
ghost use Rattle.forwarding.specs.Matches.{IsLongest, MatchValue, longest_match};

/// The entry that matches an address is that of the longest prefix: it covers the address, and no
/// longer one that covers it has an entry. There is none where no prefix that covers it has one.
pub fn matches_are_longest()
    ensures { (entry : Net → Option MatchValue) (address : Addr)
        → IsLongest entry address (longest_match entry address) }
{}

//! What holds of atoms.

ghost use Rattle.std.specs.Prelude.{◌≡◌, ◌≤◌, ◌<◌, ◌^◌, ℕ, true, List, Contains, Some};
ghost use Rattle.lsa_codec.specs.Prefix.{Net, masked};
ghost use Rattle.lsa_codec.specs.declared.address.Addr.{Addr};
ghost use Rattle.lsdb.specs.Lists.{Lists};
ghost use Rattle.forwarding.specs.Graphs.{graph_of, routers_of};
ghost use Rattle.forwarding.specs.Matches.{MatchValue, RouterValue, entry_for, has_net};
ghost use Rattle.loop_report.specs.Atoms.{IsInAtom, nets_in_either};

/// All addresses of an atom have the same forwarding graph, in each of the two databases.
pub fn an_atom_has_one_graph()
    ensures was { (was is : Lists) (net : Net) (a b : Addr)
        → IsInAtom (nets_in_either was is) net a → IsInAtom (nets_in_either was is) net b
        → graph_of was a ≡ graph_of was b }
    ensures is { (was is : Lists) (net : Net) (a b : Addr)
        → IsInAtom (nets_in_either was is) net a → IsInAtom (nets_in_either was is) net b
        → graph_of is a ≡ graph_of is b }
{}

/// An address that a prefix of some covers is in the atom of one of them, and of no other.
pub fn each_address_has_one_atom()
    ensures some { (nets : List Net) (address : Addr) (len : ℕ) → address.0 < 2 ^ 32 → len ≤ 32
        → has_net nets (masked address len) ≡ true
        → (net : Net) × (has_net nets net ≡ true) × IsInAtom nets net address }
    ensures one { (nets : List Net) (address : Addr) (a b : Net) → has_net nets a ≡ true
        → has_net nets b ≡ true → IsInAtom nets a address → IsInAtom nets b address → a ≡ b }
{}

/// The prefix of each entry of an attached router is among those whose atoms are looked at.
pub fn entries_have_prefixes()
    ensures was { (was is : Lists) (r : RouterValue) (net : Net) (entry : MatchValue)
        → Contains (routers_of was) r → entry_for was r net ≡ Some entry
        → has_net (nets_in_either was is) net ≡ true }
    ensures is { (was is : Lists) (r : RouterValue) (net : Net) (entry : MatchValue)
        → Contains (routers_of is) r → entry_for is r net ≡ Some entry
        → has_net (nets_in_either was is) net ≡ true }
{}

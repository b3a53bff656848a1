//! Laws: what holds of the definitions that the contracts of this crate cite. Each is a function
//! that does nothing, and its contract is the law.

ghost use Rattle.std.specs.Prelude.{◌≡◌, [], ℕ, List, drop};
ghost use Rattle.lsa_codec.specs.Fields.{header_length};
ghost use Rattle.lsa_changes.specs.Changes.{lsa_changes};

/// LSAs with the same bytes after the header do not differ: LS age, options, LS sequence number and
/// LS checksum mean nothing.
pub fn same_content_does_not_differ()
    ensures { (before now : List ℕ) → drop header_length before ≡ drop header_length now
        → lsa_changes before now ≡ [] }
{}

//! Laws: what holds of the definitions that the contracts of this crate cite. Each is a function
//! that does nothing, and its contract is the law.

ghost use Rattle.std.specs.Prelude.{◌≡◌, ◌+◌, ◌-◌, ◌≤◌, ◌<◌, ◌^◌, ◌++◌, ◌∷◌, [], ℕ, List, Bool, true, map, not, length, take, drop, set, Some, Ok};
ghost use Rattle.std.specs.List.{filter, remove};
ghost use Rattle.std.specs.Cmp.{IsTotalOrder};
ghost use Rattle.std.specs.declared.cmp.Ordering.TheVariants.{Equal};
ghost use Rattle.lsa_codec.specs.declared.link.Link.{Link};
ghost use Rattle.lsa_codec.specs.declared.address.Addr.{Addr};
ghost use Rattle.lsa_codec.specs.declared.address.RouterId.{RouterId as AnyRouter};
ghost use Rattle.lsa_codec.specs.declared.address.AreaId.{AreaId as AnyArea};
ghost use Rattle.lsa_codec.specs.declared.key.Key.{Key as AnyKey};
ghost use Rattle.lsa_codec.specs.Order.{area_cmp, router_cmp, prefix_cmp, key_cmp};
ghost use Rattle.lsa_codec.specs.Fields.{kind_of};
ghost use Rattle.lsa_codec.specs.Prefix.{Net, IsNet, is_mask, mask_of_len, len_of_mask};
ghost use Rattle.lsa_codec.specs.Checksum.{is_checksum_good, with_checksum};
ghost use Rattle.lsa_codec.specs.Links.{links_of, link_numbered, remetered, unplaced};
ghost use Rattle.lsa_codec.specs.LsTypes.{router_lsa};
ghost use Rattle.lsa_codec.specs.Accepted.{IsAccepted};
ghost use Rattle.lsa_codec.specs.Decoding.{decoded};
ghost use Rattle.lsa_codec.specs.Views.{has_metric};
ghost use Rattle.lsa_codec.specs.Making.{with_cost, without_link, without_links, with_stub, stub_link, IsRewriteOf, IsExtensionOf, KeepsAgeAndFlags};
ghost use Rattle.lsa_codec.specs.Originating.{with_metric, new_summary, new_external, IsNewLsa, HasOtherMetric, HasNewFields, HasExternalFields};

use crate::address::{AreaId, RouterId};
use crate::key::Key;
use crate::prefix::Prefix;

/// Decoding finds every accepted LSA, whatever follows it.
pub fn decoding_is_complete()
    ensures { (lsa rest : List ℕ) → IsAccepted lsa → decoded (lsa ++ rest) ≡ Ok lsa }
{}

/// No accepted LSA is a proper front of another.
pub fn one_front()
    ensures { (a b x y : List ℕ) → IsAccepted a → IsAccepted b → a ++ x ≡ b ++ y → a ≡ b }
{}

/// The checksum that is made is good: both sums are 0 modulo 255, and the field is not 0 (RFC
/// 2328, 12.1.7). It changes the two bytes of the field alone.
pub fn made_checksum_is_good()
    ensures good { (lsa : List ℕ) → 20 ≤ length lsa → is_checksum_good (with_checksum lsa) ≡ true }
    ensures before { (lsa : List ℕ) → 20 ≤ length lsa → take 16 (with_checksum lsa) ≡ take 16 lsa }
    ensures after { (lsa : List ℕ) → 20 ≤ length lsa → drop 18 (with_checksum lsa) ≡ drop 18 lsa }
    ensures size { (lsa : List ℕ) → 20 ≤ length lsa → length (with_checksum lsa) ≡ length lsa }
{}

/// The links after a removal are the kept ones in order, apart from their offsets.
pub fn links_after_removal()
    ensures link { (k : ℕ) (lsa made : List ℕ) → IsAccepted lsa → kind_of lsa ≡ router_lsa
        → without_link k lsa ≡ Ok made
        → map unplaced (links_of made) ≡ map unplaced (remove (links_of lsa) (k - 1)) }
    ensures links { (test : Link → Bool) (lsa made : List ℕ) → IsAccepted lsa
        → kind_of lsa ≡ router_lsa
        → without_links test lsa ≡ Ok made
        → map unplaced (links_of made)
        ≡ map unplaced (filter (λ link. not (test link)) (links_of lsa)) }
{}

/// The links after another cost are the old ones, with the new metric in link `k`.
pub fn links_after_cost()
    ensures { (k metric : ℕ) (link : Link) (lsa made : List ℕ) → IsAccepted lsa
        → kind_of lsa ≡ router_lsa
        → metric < 2 ^ 16 → link_numbered k lsa ≡ Some link → with_cost k metric lsa ≡ Ok made
        → links_of made ≡ set (links_of lsa) (k - 1) (remetered link metric) }
{}

/// The links after a stub link is added are the old ones, at their offsets, and then that one,
/// where the old LSA ended.
pub fn links_after_stub()
    ensures { (net : Net) (metric : ℕ) (lsa made : List ℕ) → IsAccepted lsa
        → kind_of lsa ≡ router_lsa
        → net.addr.0 < 2 ^ 32 → metric < 2 ^ 16 → with_stub net metric lsa ≡ Ok made
        → links_of made ≡ links_of lsa ++ stub_link net metric (length lsa) ∷ [] }
{}

/// A router-LSA made from another keeps its LS age and its flags.
pub fn router_makers_keep_age_and_flags()
    ensures cost { (k metric : ℕ) (lsa made : List ℕ) → IsAccepted lsa → kind_of lsa ≡ router_lsa
        → metric < 2 ^ 16 → with_cost k metric lsa ≡ Ok made → KeepsAgeAndFlags lsa made }
    ensures link { (k : ℕ) (lsa made : List ℕ) → IsAccepted lsa → kind_of lsa ≡ router_lsa
        → without_link k lsa ≡ Ok made → KeepsAgeAndFlags lsa made }
    ensures links { (test : Link → Bool) (lsa made : List ℕ) → IsAccepted lsa
        → kind_of lsa ≡ router_lsa
        → without_links test lsa ≡ Ok made → KeepsAgeAndFlags lsa made }
    ensures stub { (net : Net) (metric : ℕ) (lsa made : List ℕ) → IsAccepted lsa
        → kind_of lsa ≡ router_lsa
        → with_stub net metric lsa ≡ Ok made → KeepsAgeAndFlags lsa made }
{}

/// A summary-LSA or AS-external-LSA with another metric keeps all other fields.
pub fn metric_alone_changes()
    ensures { (metric : ℕ) (lsa : List ℕ) → IsAccepted lsa → has_metric (kind_of lsa) ≡ true
        → metric < 2 ^ 24 → HasOtherMetric metric lsa (with_metric metric lsa) }
{}

/// An LSA made from another is accepted and has the same key. It is no longer than the other,
/// except where a stub link is added.
pub fn makers_keep_the_key()
    ensures cost { (k metric : ℕ) (lsa made : List ℕ) → IsAccepted lsa → kind_of lsa ≡ router_lsa
        → metric < 2 ^ 16 → with_cost k metric lsa ≡ Ok made → IsRewriteOf lsa made }
    ensures link { (k : ℕ) (lsa made : List ℕ) → IsAccepted lsa → kind_of lsa ≡ router_lsa
        → without_link k lsa ≡ Ok made → IsRewriteOf lsa made }
    ensures links { (test : Link → Bool) (lsa made : List ℕ) → IsAccepted lsa
        → kind_of lsa ≡ router_lsa
        → without_links test lsa ≡ Ok made → IsRewriteOf lsa made }
    ensures stub { (net : Net) (metric : ℕ) (lsa made : List ℕ) → IsAccepted lsa
        → kind_of lsa ≡ router_lsa
        → IsNet net → with_stub net metric lsa ≡ Ok made → IsExtensionOf lsa made }
    ensures metric { (metric : ℕ) (lsa : List ℕ) → IsAccepted lsa → has_metric (kind_of lsa) ≡ true
        → IsRewriteOf lsa (with_metric metric lsa) }
{}

/// A new LSA for a prefix is accepted, has the prefix's address as its Link State ID, and has 28
/// bytes (a summary-LSA) or 36 (an AS-external-LSA).
pub fn new_lsas_have_their_key()
    ensures summary { (options : ℕ) (adv : AnyRouter) (net : Net) (metric : ℕ)
        → IsNet net → net.addr.0 < 2 ^ 32 → adv.0 < 2 ^ 32
        → IsNewLsa 3 net adv 28 (new_summary options adv net metric) }
    ensures external { (adv : AnyRouter) (net : Net) (type2 : Bool) (metric : ℕ)
        (forward : Addr) (tag : ℕ) → IsNet net → net.addr.0 < 2 ^ 32 → adv.0 < 2 ^ 32
        → IsNewLsa 5 net adv 36 (new_external adv net type2 metric forward tag) }
{}

/// A new LSA for a prefix has the fields that it was made of. Its LS age is 1.
pub fn new_lsas_have_their_fields()
    ensures summary { (options : ℕ) (adv : AnyRouter) (net : Net) (metric : ℕ)
        → IsNet net → net.addr.0 < 2 ^ 32 → metric < 2 ^ 24
        → HasNewFields net metric (new_summary options adv net metric) }
    ensures external { (adv : AnyRouter) (net : Net) (type2 : Bool) (metric : ℕ)
        (forward : Addr) (tag : ℕ) → IsNet net → net.addr.0 < 2 ^ 32 → metric < 2 ^ 24
        → HasNewFields net metric (new_external adv net type2 metric forward tag) }
    ensures further { (adv : AnyRouter) (net : Net) (type2 : Bool) (metric : ℕ)
        (forward : Addr) (tag : ℕ) → forward.0 < 2 ^ 32 → tag < 2 ^ 32
        → HasExternalFields type2 forward tag (new_external adv net type2 metric forward tag) }
{}

/// The masks are exactly those of the lengths up to 32, and each has one length.
pub fn masks()
    ensures found { (mask : ℕ) → mask < 2 ^ 32 → is_mask mask ≡ true
        → (len_of_mask mask ≤ 32) × (mask_of_len (len_of_mask mask) ≡ mask) }
    ensures back { (len : ℕ) → len ≤ 32
        → (is_mask (mask_of_len len) ≡ true) × (len_of_mask (mask_of_len len) ≡ len) }
{}

/// The orders of Area IDs, Router IDs, prefixes and keys are their `Ord`. They are total, and two
/// values compare as equal only where they are the same.
pub fn orders()
    ensures areas { (a b : AnyArea) → ⟦<AreaId as Ord>⟧.cmp a b ≡ area_cmp a b }
    ensures areas_are_total { IsTotalOrder area_cmp }
    ensures areas_are_exact { (a b : AnyArea) → area_cmp a b ≡ Equal → a ≡ b }
    ensures routers { (a b : AnyRouter) → ⟦<RouterId as Ord>⟧.cmp a b ≡ router_cmp a b }
    ensures routers_are_total { IsTotalOrder router_cmp }
    ensures routers_are_exact { (a b : AnyRouter) → router_cmp a b ≡ Equal → a ≡ b }
    ensures prefixes { (a b : Net) → ⟦<Prefix as Ord>⟧.cmp a b ≡ prefix_cmp a b }
    ensures prefixes_are_total { IsTotalOrder prefix_cmp }
    ensures prefixes_are_exact { (a b : Net) → prefix_cmp a b ≡ Equal → a ≡ b }
    ensures keys { (a b : AnyKey) → ⟦<Key as Ord>⟧.cmp a b ≡ key_cmp a b }
    ensures keys_are_total { IsTotalOrder key_cmp }
    ensures keys_are_exact { (a b : AnyKey) → key_cmp a b ≡ Equal → a ≡ b }
{}

//! What holds of all events of links.

ghost use Rattle.std.specs.Prelude.{◌≡◌, ℕ, List, not, true, false, map, filter, Ok, None, Some};
ghost use Rattle.std.specs.List.{list_any};
ghost use Rattle.lsa_codec.specs.declared.link.Link.{Link as AnyLink};
ghost use Rattle.lsa_codec.specs.Accepted.{IsAccepted};
ghost use Rattle.lsa_codec.specs.Fields.{kind_of};
ghost use Rattle.lsa_codec.specs.Links.{links_of, unplaced};
ghost use Rattle.lsa_codec.specs.LsTypes.{router_lsa};
ghost use Rattle.lsa_codec.specs.Making.{IsRewriteOf};
ghost use Rattle.lsa_remaking.specs.declared.link_change.LinkChange.TheVariants.{Removed};
ghost use Rattle.lsa_codec.specs.Key.{router_key};
ghost use Rattle.lsdb.specs.Lists.{AreaHead, Lists, has_key, heads_of};
ghost use Rattle.event_links.specs.declared.event.LinkEvent.{LinkEvent as AnyEvent};
ghost use Rattle.event_links.specs.declared.selection.LinkEdit.{LinkEdit as AnyEdit};
ghost use Rattle.event_links.specs.Interfaces.{is_among};
ghost use Rattle.event_lsas.specs.Outcomes.{kept, becomes, relinked_where};
ghost use Rattle.event_links.specs.Selections.{chosen_in, id_of};
ghost use Rattle.event_lsas.specs.LinkEvents.{outcome_of, link_event};

use lsa_codec::{links_after_removal, makers_keep_the_key};

/// The areas of a database stay, in their order, whatever happens.
pub fn areas_stay()
    ensures { (db : Lists) (event : AnyEvent) (new : Lists) → link_event db event ≡ Ok new
        → heads_of new ≡ heads_of db }
{}

/// All LSAs but the router-LSAs of the routers of an event are kept as they are; those of AS scope
/// are.
pub fn others_stay()
    ensures areas { (db : Lists) (edit : AnyEdit) (head : AreaHead) (lsa : List ℕ)
        → let chosen = chosen_in db (id_of head) edit.selection in
        has_key (router_key chosen.router) lsa ≡ false
        → has_key (router_key chosen.neighbor) lsa ≡ false
        → outcome_of db edit (Some head) lsa ≡ kept }
    ensures as_wide { (db : Lists) (edit : AnyEdit) (lsa : List ℕ)
        → outcome_of db edit None lsa ≡ kept }
{}

/// Where chosen links of a router-LSA are removed, and some is left, the links are the others, in
/// their order, apart from their offsets; the LSA has its key, and is no longer than before.
pub fn removed_links_are_gone()
    ensures links { (chosen : List AnyLink) (lsa new : List ℕ) → IsAccepted lsa
        → kind_of lsa ≡ router_lsa → list_any (is_among chosen) (links_of lsa) ≡ true
        → relinked_where Removed chosen lsa ≡ becomes (Some new)
        → map unplaced (links_of new)
        ≡ map unplaced (filter (λ link. not (is_among chosen link)) (links_of lsa)) }
    ensures keeps { (chosen : List AnyLink) (lsa new : List ℕ) → IsAccepted lsa
        → kind_of lsa ≡ router_lsa → list_any (is_among chosen) (links_of lsa) ≡ true
        → relinked_where Removed chosen lsa ≡ becomes (Some new) → IsRewriteOf lsa new }
{
    links_after_removal();
    makers_keep_the_key();
}

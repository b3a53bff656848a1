//! A law: which networks are chosen. The function does nothing, and its contract is the law.

ghost use Rattle.std.specs.Prelude.{◌≡◌, ◌↔◌, List, Contains};
ghost use Rattle.lsa_codec.specs.Fields.{link_state_id_of};
ghost use Rattle.lsa_codec.specs.Views.{net_of_lsa};
ghost use Rattle.area_routes.specs.Reached.{ReachedValue};
ghost use Rattle.area_routes.specs.Networks.{chosen};
ghost use Rattle.area_routes.specs.Choice.{IsBestOf};

/// One network is chosen among those of each prefix: the nearest, and of several as near the one
/// with the greatest Link State ID. The networks of an area have different Link State IDs.
pub fn network_choice()
    ensures best { (ns : List ReachedValue) (n : ReachedValue)
        → Contains (chosen ns) n ↔ IsBestOf ns n }
    ensures each { (ns : List ReachedValue) (m : ReachedValue) → Contains ns m
        → (n : ReachedValue) × Contains (chosen ns) n × (net_of_lsa n.lsa ≡ net_of_lsa m.lsa) }
    ensures one { (ns : List ReachedValue) (m n : ReachedValue)
        → Contains (chosen ns) m → Contains (chosen ns) n
        → net_of_lsa m.lsa ≡ net_of_lsa n.lsa → link_state_id_of m.lsa ≡ link_state_id_of n.lsa }
{}

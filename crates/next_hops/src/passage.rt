//! How hops go on over an edge.

ghost use Rattle.std.specs.Prelude.{◌≡◌, All};
ghost use Rattle.std.specs.Bool.{OnFalse};
ghost use Rattle.next_hops.specs.Hop.{IsSortedHops};
ghost use Rattle.next_hops.specs.steps.Table.{GoOn, StayAsTheyAre, StaysAsItIs};

use crate::hop::Hop;
use crate::laws::hop_order;
use lsa_codec::Addr;

/// How the hops of a list go on over an edge.
#[derive(Clone, Copy)]
pub(crate) enum Passage {
    /// There are none.
    Empty,
    /// As they are, whatever address the edge carries.
    Unchanged,
    /// Each extended to the address ([`Hop::extended`]).
    Extended,
}

/// Whether a hop is a network of the router itself.
fn is_attached(hop: Hop) -> bool
    ensures { OnFalse result (StaysAsItIs hop) }
{
    matches!(hop, Hop::Attached(_))
}

/// Whether one of these hops is a network of the router itself.
fn has_attached(hops: &[Hop]) -> bool
    requires { IsSortedHops hops.now }
    ensures { OnFalse result (StayAsTheyAre hops.now) }
{
    hop_order();
    match hops.binary_search(&Hop::Attached(Addr(0))) {
        Ok(_) => true,
        Err(place) => match hops.get(place) {
            Some(hop) => is_attached(*hop),
            None => false,
        },
    }
}

impl Passage {
    /// How these hops go on.
    pub(crate) fn of(hops: &[Hop]) -> Passage
        requires { IsSortedHops hops.now }
        ensures { GoOn result hops.now }
    {
        if hops.is_empty() {
            Passage::Empty
        } else if has_attached(hops) {
            Passage::Extended
        } else {
            Passage::Unchanged
        }
    }
}

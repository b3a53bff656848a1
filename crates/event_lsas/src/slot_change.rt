//! What a slot of a database gets where an event changes it.

ghost use Rattle.std.specs.Prelude.{◌≡◌, option_map};

use lsa_codec::Lsa;
use lsdb::{Section, SlotId};
use std::alloc::{Allocator, Global};
use std::marker::Model;

/// A slot, its section, the LS type of the LSA there, and the LSA that it gets: none where the LSA
/// there is withdrawn.
#[derive(Drop)]
pub struct SlotChange<A: Allocator = Global> {
    slot: SlotId,
    section: Section,
    kind: u8,
    lsa: Option<Lsa<A>>,
}

impl<A: Allocator> Model for SlotChange<A> {
    ghost use Rattle.event_lsas.specs.Outcomes.{SlotChangeData};

    ghost Value = { SlotChangeData };

    ghost view = { λ c.
        record { slot = c.slot; section = c.section; kind = c.kind; new = c.lsa } };
}

impl<A: Allocator + Copy> SlotChange<A> {
    /// The change of a slot.
    pub fn new(slot: SlotId, section: Section, kind: u8, lsa: Option<Lsa<A>>) -> SlotChange<A>
        ensures { result ≡ record { slot = slot; section = section; kind = kind; new = lsa } }
    {
        SlotChange {
            slot,
            section,
            kind,
            lsa,
        }
    }

    /// The slot.
    pub fn slot(&self) -> SlotId
        ensures { result ≡ self.now.slot }
    {
        self.slot
    }

    /// The section of the slot.
    pub fn section(&self) -> Section
        ensures { result ≡ self.now.section }
    {
        self.section
    }

    /// The LS type of the LSA that was there.
    pub fn kind(&self) -> u8
        ensures { result ≡ self.now.kind }
    {
        self.kind
    }

    /// The LSA that the slot gets, or `None` where it becomes empty.
    pub fn lsa(&self) -> Option<&Lsa<A>>
        ensures { option_map (λ lsa. lsa.now) result ≡ self.now.new }
    {
        self.lsa.as_ref()
    }

    /// The LSA that the slot gets, by value.
    pub fn into_lsa(self) -> Option<Lsa<A>>
        ensures { result ≡ self.new }
    {
        self.lsa
    }
}

//! Link state databases: the LSAs of each area and those of AS scope (RFC 2328, 12.2).
//!
//! A [`Database`] keeps each LSA at a *slot* of its own. A slot holds one LSA or is empty, and
//! keeps its [`SlotId`] for as long as the database lives: an LSA that is removed leaves its slot
//! empty, and all others stay where they are. So an edit can be undone by putting the old LSAs
//! back, each at its slot, and the LSAs then stand in the order in which they stood before.
//!
//! The sections of a database are numbered: the areas come first, in rising order of their IDs,
//! and the LSAs of AS scope last. Each reader is there by the name of a section and, with `_in`,
//! by its number.
#![tactic(auto)]

mod base;
mod copy;
mod counts;
mod cursor;
mod database;
mod dump;
mod fault;
mod index_key;
mod indexes;
mod keyed_slots;
mod laws;
mod limits;
mod lists;
mod load;
mod lookup;
mod lsas;
mod merged;
mod origin;
mod read;
mod section;
mod slot;
mod slot_index;
mod slots;
mod transit_filters;

pub use base::base_laws;
pub use counts::LsaCounts;
pub use database::Database;
pub use fault::{DumpFault, DumpFaultKind};
pub use laws::slot_laws;
pub use limits::{LONGEST_DUMP, LONGEST_SESSION, MOST_AREAS, MOST_LSAS_OF_AREA, MOST_LSAS_OF_AS};
pub use load::text_laws;
pub use lookup::network_keys;
pub use lsas::Lsas;
pub use origin::prefix_of;
pub use section::Section;
pub use slot::{SlotFault, SlotId};
pub use slot_index::SlotOf;

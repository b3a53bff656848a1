//! What tests are made of: link state databases, byte by byte, readers and writers that fail on
//! request, an allocator that refuses, and calls whose growths are refused, each in turn.
//!
//! A plain program makes LSAs from their fields, with good checksums, and dumps from LSAs. It
//! shares nothing with the crates that are tested with it. Contracts define the bytes that it
//! makes, by definitions of its own, and how many bytes the readers and writers move. How
//! [`dump_of_text`] reads the text of a database is only tested.
//!
//! [`growths_of`] makes a call with each number of growths that is too few for it, and
//! [`first_wrong`] each call of a list. [`outcome_of`] makes a
//! call with such a number, and then with ample memory.
#![tactic(auto)]

// LSAs and dumps.
mod fletcher;
mod known;
mod link;
mod list;
mod lsa;
mod text;

// Readers and writers.
mod doubles;

// Memory.
mod allowance;
mod failing_alloc;
mod network_bytes;
mod refusals;

pub use doubles::{Failing, FailsOnce, Sink, Source, Zeros};
pub use failing_alloc::FailingAlloc;
pub use known::{MASK_16, R1, R2, R3, R4, SAMPLE, network_of_three};
pub use link::{RouterLink, to_network, to_router, to_stub};
pub use list::{LsaList, dump_of, session_of};
pub use lsa::Header;
pub use network_bytes::NETWORK;
pub use refusals::{
    Answer, CallOn, FallibleCall, Outcome, first_wrong, growths_of, growths_or_wrong, outcome_of,
};
pub use text::{TextFault, dump_of_text};

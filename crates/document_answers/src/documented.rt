//! What a question is answered in a document.

use std::alloc::{Allocator, Global};

/// What a question is answered in a document.
#[derive(Drop)]
pub enum Documented<A: Allocator = Global> {
    /// The members of the reply, each after a comma, and the end of the object.
    Members(Vec<u8, A>),
    /// The question names a router that is not there.
    NoRouter,
    /// Fewer edits are done than it names.
    TooFewDone,
    /// It names an area that is not there.
    NoArea,
}

//! What documents contain.

mod parsed;
pub(super) mod pieces;

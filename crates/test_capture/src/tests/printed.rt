//! What printed LSAs contain. The texts are what FRR 8.4 routers print, and the bytes are
//! those that the same LSAs had on the links.

mod parsed;
pub(super) mod pieces;

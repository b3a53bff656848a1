mod dumps;
pub(super) mod pieces;
mod refusals;

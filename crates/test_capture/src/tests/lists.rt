mod differences;
mod lines;
mod lists;
pub(super) mod pieces;

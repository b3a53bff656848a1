//! What single failures do to small networks.

mod lines;

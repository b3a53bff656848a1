//! What loops in small networks, and what is dropped.

mod lines;

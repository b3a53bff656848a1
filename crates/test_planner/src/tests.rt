//! What planners do, on small networks, and the lines of saved sessions.

// What is called.
mod acts;
mod calls;

// Planners.
mod faults;
mod memory;
mod parts;
mod tables;
mod unchanged;

// The lines of saved sessions.
mod lines;

//! Names files, and lines that are read with their names.

// What the tests share.
mod hosts;

// Names files.
mod names;

// Lines.
mod commands;
mod expectations;
mod faults;
mod hints;
mod memory;

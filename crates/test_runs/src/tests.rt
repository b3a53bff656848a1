//! Readers and writers that fail, whole texts over them, and memory that runs out.

mod dumps;
mod failing;
mod growths;
mod memory;
mod outcome;
mod texts;

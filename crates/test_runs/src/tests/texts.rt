//! Watched readers and writers, and whole texts read and written.

mod reading;
mod text;
mod watching;
mod writing;

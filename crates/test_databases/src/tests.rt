//! Views, slots, records and texts, and what is answered where memory runs out.

// What answers something new.
mod calls;

// What tests are made of.
mod support;

// LSAs, and what they speak of.
mod metrics;
mod prefixes;
mod samples;
mod texts;
mod views;

// Databases.
mod bases;
mod dumps;
mod filters;
mod noted;
mod slots;

// Scripts.
mod lines;

// Edits.
mod changes;
mod edited;
mod growths;
mod nets;
mod records;
mod refreshes;
mod refusals;
mod sessions;

//! Departures in the link state databases of small networks.

// What the tests share.
mod built;
mod failures;
mod networks;
mod refusals;

//! Events on the link state databases of small networks.

// What the tests share.
mod built;
mod costs;
mod cuts;
mod refusals;

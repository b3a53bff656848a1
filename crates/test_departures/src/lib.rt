//! Tests of departures: what real routers originated where a router left a transit network, or
//! failed, LSA by LSA.
#![tactic(auto)]

#[cfg(test)]
mod tests;

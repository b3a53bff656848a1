//! Tests of events: what real routers originated where links were cut, got another cost, or a
//! router was drained, link by link.
#![tactic(auto)]

#[cfg(test)]
mod tests;

//! Calls whose growths are refused, each in turn.

// What the calls are made on, and what they answer.
mod answers;
mod network;
mod outcomes;

// The calls.
mod branch_calls;
mod planner_calls;
mod readers;
mod route_calls;
mod session_calls;
mod text_calls;

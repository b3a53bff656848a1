//! Where packets go in small networks.

// What the tests build, and what calls answer, as texts.
mod answers;
mod built;
mod texts;

// Where packets go.
mod own_externals;
mod paths;
mod routers;

// What routers have lost.
mod lost;

// Calls where memory is refused.
mod growths;
mod hub_growths;

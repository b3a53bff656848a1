//! What pieces of walks contain. The walks are of FRR routers, and each value that is expected was
//! worked out by hand from the columns of RFC 4750.

mod parsed;
mod pieces;

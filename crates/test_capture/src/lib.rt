//! Tests of what captures, walks and printed databases contain, and of what the files of a network
//! make together: real files, cut and damaged ones, and files made by hand, byte by byte.
#![tactic(auto)]

#[cfg(test)]
mod tests;

//! What captures, walks and printed databases contain, and what the files of a network make
//! together.

// Files: real ones, cut and damaged ones, and some made by hand, byte by byte.
mod captures;
mod documents;
mod packets;
mod printed;
mod walks;

// What they make together: instances of LSAs, databases of observations, and dumps.
mod databases;
mod files;
mod instances;

// Lists beside databases.
mod lists;

// Calls of which growths are refused.
mod growths;

// What the tests make, and what they compare.
mod contents;
mod observed;
mod parts;

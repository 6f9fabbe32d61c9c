// What the programs share that run cases of the engine, a line each: lines of standard input, their fields, and the fields of an
// answer. reference/README.md has the form of both ("A line"). Nothing here is an operation of the engine: a function is proved to be
// safe and to end, and what the programs print is compared with what the reference answers.
#![tactic(auto)]

pub mod answers;
pub mod cases;
pub mod elements;
pub mod hashes;
pub mod lent;
pub mod lines;

// Bytes of the longest program that a line makes, with some to spare.
pub const PROGRAM: usize = 2_621_520;

// Room for the bytes that a line gives, or that are lent for a matrix file.
pub const BYTES: usize = 4160;

// Lanes: 64 strings of bits become words, and output words become samples (01, "Runs, words, samples").
//
// Lane j is bit j of every word. Every operation takes any content and any length, and answers a result or one refusal. Its contract
// cites one definition of specs/Slicing.antt or specs/Samples.antt, which gives the outcome; a lent buffer ends as it began, with what the
// outcome lays at its front.
#![tactic(auto)]

mod sampling;
mod slicing;
mod transposing;

pub use sampling::{MISS, SIGNED_MISS, Sample, read, samples, signed_samples};
pub use slicing::{LANES, slice};

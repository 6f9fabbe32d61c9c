// Matrix files: checking, reading and writing them (01, "Matrix and walk", "Files", "The engine's no").
//
// Every operation takes any content and any length, and answers a result or one refusal. Its contract cites one definition of
// specs/Files.antt, which gives the outcome; a lent buffer ends as it began, with what the outcome lays at its front.
#![tactic(auto)]

mod headers;
mod live;
mod reading;
mod writing;

pub use headers::{ROWS, Sizes, write_header};
pub use reading::{check, read};
pub use writing::write;

// The description of a Boolean program: its limits, its rows, its header, and its instructions with their bytes and their text (01,
// "Files"; 02, order 10).
#![tactic(auto)]

mod description;
mod headers;
mod instructions;
mod listing;
mod rows;
mod storing;

pub use description::{Instruction, Left, Program, Seen};
pub use headers::{read_header, write_header};
pub use instructions::{decode, encode};
pub use rows::{row_bits, suited};

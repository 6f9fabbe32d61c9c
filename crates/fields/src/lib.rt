// What files and strings are made of: refusals, 16-bit fields, packed bits, the limit of columns, and strings of bits packed as a row is
// (01, "Files", "Runs, words, samples", "The engine's no"); an operation's answer is a `Result` whose error is a refusal.
//
// Every operation takes any content and any length. Its contract cites one definition of specs/.
#![tactic(auto)]

mod bits;
mod limits;
mod packing;
mod records;
mod refusals;

pub use bits::{Bits, bit, pack_bits, width};
pub use limits::{COLUMNS, lesser, outside};
pub use packing::check_strings;
pub use records::{field, put_field};
pub use refusals::Refusal;

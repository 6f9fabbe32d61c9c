// One entropy buffer, several signers (02, order 9).
//
// A pool is a number of words and a list of signers, each with a reserve, a cap and what it has drawn. The words are the caller's, and none
// is read or copied here: a draw answers where in them the next ones start. `open`, `draw` and `refill` take any number of words and any
// records. Their contracts cite `open_of`, `draw_of` and `refill_of` of specs/Pool.antt; what holds of every sequence of calls from an
// opening on is in specs/Theorems.antt.
#![tactic(auto)]

mod deciding;
mod pools;
mod signers;

pub use pools::{draw, open, refill};
pub use signers::Signer;

// Cumulative tables (02, order 4): numbers T[0] = 0, T[1], .., T[m] that never fall, the last at most 2^n. Row v of the matrix is
// T[v+1] - T[v].
//
// `import` writes the matrix file of a table, `export` lays down the table of a matrix file, and `lookup` gives the sample of a number from
// 1 to 2^n. Each takes any content and any length, and answers a result or one refusal. Its contract cites one definition of
// specs/Tables.antt, which gives the outcome; a lent buffer ends as it began, with what the outcome lays at its front.
#![tactic(auto)]

mod exporting;
mod importing;
mod looking;
mod tables;

pub use exporting::{Extent, export};
pub use importing::import;
pub use looking::lookup;

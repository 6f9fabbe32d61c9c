// The translation of a matrix file into a Boolean program (01, "Translation"; 02, order 6).
//
// `compile` takes any file and any buffer, of any length, and answers the program's length or one refusal. Its contract cites
// `compile_of` of specs/Translation.antt. The size is measured, column by column, before the first byte is written; then each part of
// 01's list is written by a function of its own.
#![tactic(auto)]

mod columns;
mod parts;
mod registers;
mod rows;
mod sizes;
mod translating;

pub use translating::compile;

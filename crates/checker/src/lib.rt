// The checker: whether a program file is safe to run (01, "The engine's no").
#![tactic(auto)]

mod bytes;
mod checking;
mod gates;
mod operands;

pub use checking::check;

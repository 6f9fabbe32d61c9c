// Matrix files built from weights (01, "Matrix and walk": "Weights"; 02, order 5).
//
// It takes any weights and any buffer, and answers a result or one refusal. Its contract cites one definition, `build_of` of
// specs/Weights.antt, which gives the outcome; the lent buffer ends as it began, with what the outcome lays at its front.
#![tactic(auto)]

mod building;
mod dividing;

pub use building::{Usage, build};

// The functions for C (include/corkhollow.h), one exported function an operation.
//
// Every function takes any content and any length, and returns 0 or the number of a refusal. Its contract cites the definition of the
// operation that it wraps, through specs/Calls.antt. Parameters that travel together stay apart, and the contracts repeat what is returned:
// include/corkhollow.h has each number by itself, and each function under its own name, also where two differ in an operation alone.
#![tactic(auto, using(crate::specs::Telling::returned_part, crate::specs::Telling::told_part))]

mod draws;
mod matrices;
mod pools;
mod runs;
mod samples;
mod signed;
mod tables;
mod telling;

pub use draws::{corkhollow_draw, corkhollow_draw_signed};
pub use matrices::{
    corkhollow_build, corkhollow_read, corkhollow_spent, corkhollow_string_for, corkhollow_walk,
    corkhollow_write,
};
pub use pools::{corkhollow_pool_draw, corkhollow_pool_open, corkhollow_pool_refill};
pub use runs::{corkhollow_check, corkhollow_compile, corkhollow_resume, corkhollow_start};
pub use samples::{corkhollow_samples, corkhollow_slice};
pub use signed::{corkhollow_combine, corkhollow_signed_samples};
pub use tables::{corkhollow_export, corkhollow_import, corkhollow_lookup};

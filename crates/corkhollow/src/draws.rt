// For C: batches drawn in one call, plain and signed (include/corkhollow.h). Each function returns 0 or the refusal's number, and has the
// contract of the operation that it wraps.
ghost use Rattle.std.specs.Prelude.{◌≡◌, length};
ghost use Rattle.laws.specs.Lay.{lay};
ghost use Rattle.laws.specs.Outcome.{laid};
ghost use Rattle.drawing.specs.Drawing.{draw_of, draw_signed_of};
ghost use Rattle.corkhollow.specs.Calls.{returned};

use crate::telling::number;
use drawing::{draw, draw_signed};

// Draws 64 samples from a program and 64 strings.
#[unsafe(no_mangle)]
pub extern "C" fn corkhollow_draw(program: &[u8], strings: &[u8], samples: &mut [u8]) -> u32
    ensures { let o = draw_of program.now strings.now (length samples.old) in
        (result ≡ returned o) ×
        (samples.new ≡ lay (laid (λ xs. xs) o) samples.old) }
{
    number(draw(program, strings, samples))
}

// Draws 64 signed samples, with a sign word.
#[unsafe(no_mangle)]
pub extern "C" fn corkhollow_draw_signed(
    program: &[u8],
    strings: &[u8],
    sign: u64,
    samples: &mut [i16],
) -> u32
    ensures { let o = draw_signed_of program.now strings.now sign (length samples.old) in
        (result ≡ returned o) ×
        (samples.new ≡ lay (laid (λ xs. xs) o) samples.old) }
{
    number(draw_signed(program, strings, sign, samples))
}

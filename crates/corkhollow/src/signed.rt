// For C: signed samples read, and combined (include/corkhollow.h). Each function returns 0 or the refusal's number, and has the contract of
// the operation that it wraps.
ghost use Rattle.std.specs.Prelude.{◌≡◌, length};
ghost use Rattle.laws.specs.Lay.{lay};
ghost use Rattle.laws.specs.Outcome.{laid};
ghost use Rattle.lanes.specs.Samples.{signed_samples_of};
ghost use Rattle.combining.specs.Combining.{combine_of};
ghost use Rattle.corkhollow.specs.Calls.{returned};

use crate::telling::number;
use combining::combine;

// Reads the signed samples of 64 lanes off output words, of so many rows, with a sign word.
#[unsafe(no_mangle)]
pub extern "C" fn corkhollow_signed_samples(
    rows: usize,
    outputs: &[u64],
    sign: u64,
    samples: &mut [i16],
) -> u32
    ensures { let o = signed_samples_of rows outputs.now sign (length samples.old) in
        (result ≡ returned o) ×
        (samples.new ≡ lay (laid (λ xs. xs) o) samples.old) }
{
    number(lanes::signed_samples(rows, outputs, sign, samples))
}

// Combines four lists of 64 signed samples into 64 results.
#[unsafe(no_mangle)]
pub extern "C" fn corkhollow_combine(
    x1: &[i16],
    x2: &[i16],
    x3: &[i16],
    x4: &[i16],
    first: u32,
    second: u32,
    results: &mut [i32],
) -> u32
    ensures { let room = length results.old in
        let o = combine_of first second x1.now x2.now x3.now x4.now room in
        (result ≡ returned o) ×
        (results.new ≡ lay (laid (λ xs. xs) o) results.old) }
{
    number(combine(x1, x2, x3, x4, first, second, results))
}

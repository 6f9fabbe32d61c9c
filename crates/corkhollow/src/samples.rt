// For C: words sliced, and samples read (include/corkhollow.h). Each function returns 0 or the refusal's number, and has the contract of
// the operation that it wraps.
ghost use Rattle.std.specs.Prelude.{◌≡◌, length};
ghost use Rattle.laws.specs.Lay.{lay};
ghost use Rattle.laws.specs.Outcome.{laid};
ghost use Rattle.lanes.specs.Slicing.{slice_of};
ghost use Rattle.lanes.specs.Samples.{samples_of};
ghost use Rattle.corkhollow.specs.Calls.{returned};

use crate::telling::number;

// Slices 64 packed strings into words.
#[unsafe(no_mangle)]
pub extern "C" fn corkhollow_slice(columns: usize, strings: &[u8], words: &mut [u64]) -> u32
    ensures { let o = slice_of columns strings.now (length words.old) in
        (result ≡ returned o) ×
        (words.new ≡ lay (laid (λ xs. xs) o) words.old) }
{
    number(lanes::slice(columns, strings, words))
}

// Reads the samples of 64 lanes off output words, of so many rows.
#[unsafe(no_mangle)]
pub extern "C" fn corkhollow_samples(rows: usize, outputs: &[u64], samples: &mut [u8]) -> u32
    ensures { let o = samples_of rows outputs.now (length samples.old) in
        (result ≡ returned o) ×
        (samples.new ≡ lay (laid (λ xs. xs) o) samples.old) }
{
    number(lanes::samples(rows, outputs, samples))
}

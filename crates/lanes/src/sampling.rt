// Samples: output words to numbers, lane by lane (01, "Runs, words, samples"; 02, order 10).
ghost use Rattle.std.specs.Prelude.{ℕ, ◌≡◌, cond, true, ◌-◌, ◌%◌, ◌^◌, ◌<◌, eqb, length, get_or};
ghost use Rattle.std.specs.Int.Bits.{bit_and, bit_or};
ghost use Rattle.laws.specs.Lay.{lay};
ghost use Rattle.laws.specs.Outcome.{laid, mapped};
ghost use Rattle.laws.specs.Words.{bit_at};
ghost use Rattle.fields.specs.Refusal.{answered};
ghost use Rattle.programs.specs.Limits.{suited};
ghost use Rattle.lanes.specs.Transposing.{Front, Table, front};
ghost use Rattle.walk.specs.Walk.{Answer};
ghost use Rattle.lanes.specs.Samples.{Below, Coding, LaneRow, LaneRows, Spread, code, negated_if, read_of, samples_of};
ghost use Rattle.lanes.specs.Samples.{signed_code, signed_samples_of};

use crate::slicing::LANES;
use crate::transposing::{SIDE, transpose};
use fields::Refusal;
use programs::suited;

// What stands for a miss among samples, and among signed samples: all ones, so that each is the mask of its numbers too.
pub const MISS: u8 = 255;

pub const SIGNED_MISS: i16 = 32767;

// The row of the signs, above those of a number.
const SIGN: usize = 15;

// The rows that are set before the table is turned.
const FRONT: usize = 16;

// Output t, or 0 where there is none.
fn output(outputs: &[u64], t: usize) -> u64
    ensures { result ≡ get_or outputs.now t 0 }
{
    outputs.get(t).copied().unwrap_or(0)
}

// One bit more of the numbers in all lanes, above those compared so far: `fits` has the lanes that are at most the largest number allowed,
// x the bit of each lane, and b that of the largest.
fn compare(fits: u64, x: u64, b: usize) -> u64
    ensures { result ≡ cond (eqb b 1) (bit_or fits (2 ^ 64 - 1 - x)) (bit_and fits (2 ^ 64 - 1 - x)) }
{
    if b == 1 { fits | !x } else { fits & !x }
}

// The lanes whose number is below `rows`: at most rows - 1.
fn below(rows: usize, outputs: &[u64]) -> u64
    requires { suited rows (length outputs.now) ≡ true }
    ensures { Below rows outputs.now result }
{
    let last = rows - 1;
    let mut fits = u64::MAX;
    for (t, x) in outputs[1..].iter().enumerate() {
        fits = compare(fits, *x, (last >> t) & 1);
    }
    fits
}

// Sets rows 0 to 15 of a table, where the lanes in `hits` give a sample. Row t below 15 is output t + 1, with the lanes set that miss; row
// 15 is the sign word, with these lanes clear.
fn spread(outputs: &[u64], hits: u64, sign: u64, table: &mut [u64; SIDE])
    requires { Table table.old × Front front table.old }
    ensures { Spread outputs.now hits sign table.new }
{
    for (t, row) in table[..SIGN].iter_mut().enumerate() {
        *row = output(outputs, t + 1) | !hits;
    }
    table[SIGN] = sign & hits;
}

// Row j of a table becomes what lane j holds: in 15 bits its number, or all ones for a miss, and above them its sign.
fn lane_rows(rows: usize, outputs: &[u64], sign: u64, table: &mut [u64; SIDE])
    requires { (suited rows (length outputs.now) ≡ true) × Table table.old × Front front table.old }
    ensures { LaneRows rows outputs.now sign table.new }
{
    let hits = output(outputs, 0) & below(rows, outputs);
    spread(outputs, hits, sign, table);
    transpose(table, FRONT);
}

// What is read off the lanes: numbers, or numbers with a sign.
pub trait Sample: Copy {
    // An answer as a sample, with the lane's bit of the sign word.
    ghost code: { Coding Self };

    // The sample in a lane's row.
    fn of_row(row: u64) -> Self
        ensures { (bit : ℕ) (g : Answer) → LaneRow bit g row → result ≡ code bit g };
}

// The number; it has no sign.
impl Sample for u8 {
    ghost code = { λ bit g. code g };

    fn of_row(row: u64) -> u8 {
        (row & (MISS as u64)) as u8
    }
}

// The number, negated where the sign is set. A miss has no sign.
impl Sample for i16 {
    ghost code = { signed_code };

    fn of_row(row: u64) -> i16 {
        negated_if(sign_bit(row), distance(row))
    }
}

// The number in a lane's row, before its sign.
fn distance(row: u64) -> u16
    ensures { (result ≡ row % 2 ^ 15) × (result < 2 ^ 15) }
{
    (row & (SIGNED_MISS as u64)) as u16
}

// The sign in a lane's row.
fn sign_bit(row: u64) -> u16
    ensures { (result ≡ bit_at row 15) × (result < 2) }
{
    ((row >> SIGN) & 1) as u16
}

// A number, negated if the bit is set: of its two parts one is 0, so that no choice is made. Zero stays zero.
fn negated_if(bit: u16, number: u16) -> i16
    requires { (bit < 2) × (number < 2 ^ 15) }
    ensures { result ≡ negated_if bit number }
{
    let kept = number * (1 - bit);
    let negated = number * bit;
    kept as i16 + -(negated as i16)
}

// Reads the samples of all lanes from output words, of so many rows, with a sign word, and lays them at the front of `samples`; or refusal
// 3 for rows outside 1 to 128 or output words that do not suit them, then 13. Rows and words come apart, as C passes them.
pub fn read<S: Sample>(
    rows: usize,
    outputs: &[u64],
    sign: u64,
    samples: &mut [S],
) -> Result<(), Refusal>
    ensures { let o = read_of S.code rows outputs.now sign (length samples.old) in
        (answered result ≡ mapped (λ xs. tt) o) × (samples.new ≡ lay (laid (λ xs. xs) o) samples.old) }
{
    if !suited(rows, outputs.len()) {
        return Err(Refusal::Size);
    }
    if samples.len() < LANES {
        return Err(Refusal::Buffer);
    }
    let mut table = [0u64; SIDE];
    lane_rows(rows, outputs, sign, &mut table);
    for (j, row) in table.iter().enumerate() {
        samples[j] = S::of_row(*row);
    }
    Ok(())
}

// Samples without a sign.
pub fn samples(rows: usize, outputs: &[u64], samples: &mut [u8]) -> Result<(), Refusal>
    ensures { let o = samples_of rows outputs.now (length samples.old) in
        (answered result ≡ mapped (λ xs. tt) o) × (samples.new ≡ lay (laid (λ xs. xs) o) samples.old) }
{
    read(rows, outputs, 0, samples)
}

// Signed samples, with a sign word.
pub fn signed_samples(
    rows: usize,
    outputs: &[u64],
    sign: u64,
    samples: &mut [i16],
) -> Result<(), Refusal>
    ensures { let o = signed_samples_of rows outputs.now sign (length samples.old) in
        (answered result ≡ mapped (λ xs. tt) o) × (samples.new ≡ lay (laid (λ xs. xs) o) samples.old) }
{
    read(rows, outputs, sign, samples)
}

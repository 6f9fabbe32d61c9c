// Slicing: 64 packed strings to words (01, "Runs, words, samples").
ghost use Rattle.std.specs.Prelude.{◌≡◌, ◌+◌, ◌-◌, ◌*◌, min, ◌≤◌, ◌<◌, length};
ghost use Rattle.laws.specs.Digits.{number};
ghost use Rattle.laws.specs.Lists.{upto};
ghost use Rattle.laws.specs.Lay.{lay, lay_at};
ghost use Rattle.laws.specs.Outcome.{laid, mapped};
ghost use Rattle.fields.specs.Fields.{bit_of, width};
ghost use Rattle.fields.specs.Refusal.{answered};
ghost use Rattle.lanes.specs.Transposing.{side};
ghost use Rattle.lanes.specs.Slicing.{lanes, slice_of, word_of};
ghost use Rattle.lanes.specs.Blocks.{row_of};

use crate::transposing::{SIDE, transpose};
use fields::{Refusal, check_strings, lesser, width};

// Strings that are sliced, and samples that are read, at a time: one to each bit of a word.
pub const LANES: usize = 64;

// The bits of m bytes from byte `at` on as a number, the first the highest.
fn digits(strings: &[u8], at: usize, m: usize) -> u64
    requires { (m ≤ 8) × (at + m ≤ length strings.now) }
    ensures { result ≡ number (bit_of strings.now at) 0 (8 * m) }
{
    let mut x: u64 = 0;
    for byte in &strings[at..at + m] {
        x = (x << 8) | (*byte as u64);
    }
    x
}

// The same, for speed: where the compiler knows that the bytes are eight, it makes one load of them. `u64::from_be_bytes` would be a second
// way of reading them, as the last bytes of a string are fewer and need `digits` all the same.
fn row(strings: &[u8], at: usize, m: usize) -> u64
    requires { (m ≤ 8) × (at + m ≤ length strings.now) }
    ensures { result ≡ number (bit_of strings.now at) 0 (8 * m) }
{
    if m == 8 {
        digits(strings, at, 8)
    } else {
        digits(strings, at, m)
    }
}

// Row j of the table: m bytes of string j from its byte 8 q on.
fn fill(strings: &[u8], w: usize, q: usize, m: usize, rows: &mut [u64; SIDE])
    requires { (m ≤ 8) × (8 * q + m ≤ w) × (lanes * w ≤ length strings.now) × (length rows.old ≡ side) }
    ensures { rows.new ≡ upto side (row_of strings.now w q m) }
{
    for (j, x) in rows.iter_mut().enumerate() {
        *x = row(strings, j * w + 8 * q, m);
    }
}

// Lays words 64 q and up, 64 of them or those that are left, at their place in `words`: a table of the strings' bytes, transposed, has
// them in its rows, the last first. The loop counts an index, as with the rows' iterator under `rev` and `take` the proof did not close.
fn put_block(strings: &[u8], n: usize, q: usize, words: &mut [u64])
    requires { (lanes * width n ≤ length strings.now) × (n ≤ length words.old) × (64 * q < n) }
    ensures { words.new ≡ lay_at (64 * q) (upto (min side (n - 64 * q)) (λ i. word_of strings.now (width n) (64 * q + i)))
        words.old }
{
    let w = width(n);
    let m = lesser(8, w - 8 * q);
    let mut rows = [0u64; SIDE];
    fill(strings, w, q, m, &mut rows);
    transpose(&mut rows, SIDE);
    for i in 0..lesser(SIDE, n - SIDE * q) {
        words[SIDE * q + i] = rows[8 * m - 1 - i];
    }
}

// Lays the n words of 64 strings of n bits at the front of `words`, block after block. A block is 8 bytes of each string, as a byte is 8
// bits, so that `width` counts both.
fn put_words(strings: &[u8], n: usize, words: &mut [u64])
    requires { (lanes * width n ≤ length strings.now) × (n ≤ length words.old) }
    ensures { words.new ≡ lay_at 0 (upto n (word_of strings.now (width n))) words.old }
{
    for q in 0..width(width(n)) {
        put_block(strings, n, q, words);
    }
}

// Slices 64 strings of `columns` bits, one after another at the front of `strings`, into that many words; or refusal 3, 13 for the
// strings, 5, then 13 for the words.
pub fn slice(columns: usize, strings: &[u8], words: &mut [u64]) -> Result<usize, Refusal>
    ensures { let o = slice_of columns strings.now (length words.old) in
        (answered result ≡ mapped length o) × (words.new ≡ lay (laid (λ xs. xs) o) words.old) }
{
    check_strings(LANES, columns, strings)?;
    if words.len() < columns {
        return Err(Refusal::Buffer);
    }
    put_words(strings, columns, words);
    Ok(columns)
}

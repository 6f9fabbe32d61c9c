// Matrix files from weights (01, "Matrix and walk": "Weights"; 02, order 5).
ghost use Rattle.std.specs.Prelude.{◌≡◌, ◌+◌, ◌*◌, ◌^◌, ◌≤◌, ◌<◌, length, get_or};
ghost use Rattle.laws.specs.Lists.{blocks};
ghost use Rattle.laws.specs.Lay.{lay, lay_at};
ghost use Rattle.laws.specs.Outcome.{laid, mapped};
ghost use Rattle.fields.specs.Refusal.{answered};
ghost use Rattle.fields.specs.Fields.{packed, width};
ghost use Rattle.files.specs.Matrix.{most_rows};
ghost use Rattle.weights.specs.Weights.{build_of, counted, quotient, sum};

use crate::dividing::divide_row;
use fields::{Refusal, width};
use files::{Sizes, write_header};

// What the weights stand for: weight v serves sample v, or distance v on both sides of 0.
#[derive(Clone, Copy)]
pub enum Usage {
    Plain,
    Signed,
}

// Weight v as it counts in S and for its row: for signed use that of a distance other than 0 for both signs (02, order 5).
fn counted_weight(usage: Usage, v: usize, w: u32) -> u64
    ensures { result ≡ counted usage v w }
{
    match usage {
        Usage::Plain => w as u64,
        Usage::Signed => { if v == 0 { w as u64 } else { 2 * (w as u64) } }
    }
}

// S, the sum of the weights as they count.
fn sum_of(usage: Usage, weights: &[u32]) -> u64
    requires { length weights.now ≤ most_rows }
    ensures { (result ≡ sum usage weights.now) × (result < 2 ^ 40) }
{
    let mut s: u64 = 0;
    for (v, w) in weights.iter().enumerate() {
        s += counted_weight(usage, v, *w);
    }
    s
}

// Lays a row for each weight behind the header of `file`.
fn divide_rows(usage: Usage, weights: &[u32], s: u64, n: usize, file: &mut [u8])
    requires { (s ≡ sum usage weights.now) × (s < 2 ^ 40) × (8 + length weights.now * width n ≤ length file.old) }
    ensures { let ws = weights.now in
        file.new ≡ lay_at 8 (blocks (length ws) (λ v. packed n (quotient s (counted usage v (get_or ws v 0))))) file.old }
{
    // Rows by their place (tried: what `chunks_exact_mut` lends and is written to, no proof knows when its loop ends).
    let bytes = width(n);
    for (v, w) in weights.iter().enumerate() {
        let at = 8 + v * bytes;
        divide_row(
            counted_weight(usage, v, *w),
            s,
            n,
            &mut file[at..at + bytes],
        );
    }
}

// Builds the matrix of a list of weights with `columns` columns, writes its file at the front of `file`, and answers its length; or
// refusal 3, 11 or 13. It cannot answer 6: what it builds sums to at most 2^n.
pub fn build(
    weights: &[u32],
    columns: usize,
    usage: Usage,
    file: &mut [u8],
) -> Result<usize, Refusal>
    ensures { let o = build_of usage weights.now columns (length file.old) in
        (answered result ≡ mapped length o) × (file.new ≡ lay (laid (λ bytes. bytes) o) file.old) }
{
    let sizes = Sizes {
        rows: weights.len(),
        columns,
    };
    if sizes.outside() {
        return Err(Refusal::Size);
    }
    let s = sum_of(usage, weights);
    if s == 0 {
        return Err(Refusal::Weightless);
    }
    let length = write_header(sizes, file)?;
    divide_rows(usage, weights, s, columns, file);
    Ok(length)
}

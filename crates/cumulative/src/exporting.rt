// Export: the table of a matrix file (02, order 4).
ghost use Rattle.std.specs.Prelude.{◌≡◌, ◌+◌, ◌^◌, ◌≤◌, length};
ghost use Rattle.laws.specs.Sums.{sum_to};
ghost use Rattle.laws.specs.Digits.{number};
ghost use Rattle.laws.specs.Lists.{upto};
ghost use Rattle.laws.specs.Lay.{lay};
ghost use Rattle.laws.specs.Outcome.{laid, mapped};
ghost use Rattle.fields.specs.Fields.{bit_of};
ghost use Rattle.fields.specs.Refusal.{answered};
ghost use Rattle.files.specs.Matrix.{most_rows};
ghost use Rattle.cumulative.specs.Tables.{export_of, extent, most_bits};
ghost use Rattle.cumulative.specs.Exporting.{row_at};

use crate::tables::BITS;
use fields::{Refusal, bit, width};
use files::{Sizes, check};

// What is told of a table: how many numbers are laid down, and n.
#[derive(Clone, Copy)]
pub struct Extent {
    pub numbers: usize,
    pub columns: usize,
}

// The n bits that are packed from byte `at` on, as a number.
fn number_at(bytes: &[u8], at: usize, n: usize) -> u64
    requires { n ≤ most_bits }
    ensures { result ≡ number (bit_of bytes.now at) 0 n }
{
    let mut x: u64 = 0;
    for c in 0..n {
        x = 2 * x + bit(bytes, at, c) as u64;
    }
    x
}

// Fills `sums` with the sums of the packed rows up to each, from the first on.
fn add_up(bytes: &[u8], n: usize, sums: &mut [u64])
    requires { (length sums.old ≤ most_rows) × (n ≤ most_bits) × (sum_to (length sums.old) (row_at bytes.now n) ≤ 2 ^ most_bits) }
    ensures { sums.new ≡ upto (length sums.old) (λ v. sum_to (v + 1) (row_at bytes.now n)) }
{
    let w = width(n);
    let mut sum: u64 = 0;
    for (v, to) in sums.iter_mut().enumerate() {
        sum += number_at(bytes, v * w, n);
        *to = sum;
    }
}

// Exports the table of a matrix file: lays its numbers, one more than rows, at the front of `table`, and answers how many they are and the
// columns that they go with; or refusal 1 to 6 for the file, then 3 for more than 63 columns, then 13.
pub fn export(file: &[u8], table: &mut [u64]) -> Result<Extent, Refusal>
    ensures { let o = export_of file.now (length table.old) in
        (answered result ≡ mapped extent o) × (table.new ≡ lay (laid (λ t. t.numbers) o) table.old) }
{
    let Sizes { rows, columns } = check(file)?;
    if BITS < columns {
        return Err(Refusal::Size);
    }
    if table.len() < rows + 1 {
        return Err(Refusal::Buffer);
    }
    table[0] = 0;
    add_up(&file[8..], columns, &mut table[1..rows + 1]);
    Ok(Extent {
        numbers: rows + 1,
        columns,
    })
}

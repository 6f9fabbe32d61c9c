// Import: the matrix file of a table (02, order 4).
ghost use Rattle.std.specs.Prelude.{◌≡◌, ◌+◌, ◌*◌, ◌≤◌, ◌<◌, length};
ghost use Rattle.laws.specs.Digits.{digit};
ghost use Rattle.laws.specs.Lists.{blocks};
ghost use Rattle.laws.specs.Lay.{lay, lay_at};
ghost use Rattle.laws.specs.Outcome.{laid, mapped};
ghost use Rattle.fields.specs.Refusal.{answered};
ghost use Rattle.fields.specs.Fields.{packed, width};
ghost use Rattle.cumulative.specs.Tables.{difference, import_of, rows_of};
ghost use Rattle.cumulative.specs.Taken.{Rising};

use crate::tables::Table;
use fields::{Bits, Refusal, pack_bits, width};
use files::{Sizes, write_header};

// The lowest bits of a number that are left, the highest of them first.
#[derive(Drop)]
struct Digits {
    x: u64,
    left: usize,
    ghost few: { left ≤ 63 },
}

impl Bits for Digits {
    ghost bits = { λ digits i. digit digits.left digits.x i };

    fn next_bit(&mut self) -> u8 {
        self.left = self.left.saturating_sub(1);
        ((self.x >> self.left) & 1) as u8
    }
}

impl Table<'_> {
    // Packs the n bits of x into the bytes that they take.
    fn pack(self, x: u64, bytes: &mut [u8])
        requires { length bytes.old ≡ width self.columns }
        ensures { let n = self.entry.columns in bytes.new ≡ packed n (digit n x) }
    {
        let left = self.columns;
        let mut digits = Digits { x, left };
        pack_bits(left, bytes, &mut digits);
    }

    // Lays a row for each difference of neighbours behind the header of `file`.
    fn pack_rows(self, file: &mut [u8])
        requires rises { Rising self.numbers.now }
        requires in_bounds { 8 + rows_of self.numbers.now * width self.columns ≤ length file.old }
        ensures { let T = self.entry.numbers.now in
            let n = self.entry.columns in
            file.new ≡ lay_at 8 (blocks (rows_of T) (λ v. packed n (digit n (difference T v)))) file.old }
    {
        // Rows by their place, as in files: what `chunks_exact_mut` lends, no proof knows when its loop ends.
        let w = width(self.columns);
        for v in 0..self.rows() {
            let at = 8 + v * w;
            self.pack(self.numbers[v + 1] - self.numbers[v], &mut file[at..at + w]);
        }
    }
}

// Imports a cumulative table with `columns` columns: writes the file of its matrix at the front of `file`, and answers its length; or
// refusal 3 for the number of numbers or of columns, 15, 16, then 13. It cannot answer 6: the rows sum to the last number.
pub fn import(table: &[u64], columns: usize, file: &mut [u8]) -> Result<usize, Refusal>
    ensures { let o = import_of table.now columns (length file.old) in
        (answered result ≡ mapped length o) × (file.new ≡ lay (laid (λ bytes. bytes) o) file.old) }
{
    let table = Table::sized(table, columns)?;
    table.check()?;
    let sizes = Sizes {
        rows: table.rows(),
        columns: table.columns,
    };
    let length = write_header(sizes, file)?;
    table.pack_rows(file);
    Ok(length)
}

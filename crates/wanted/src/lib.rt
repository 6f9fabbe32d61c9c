// A string for a wanted sample (02, order 7): the smallest string, as a number with its first bit highest, on which the walk of a matrix
// file hits a row.
//
// `string_for` takes any file, row number and buffer, and answers that the string is laid down, that there is none, or one refusal. Its
// contract cites `wanted_of` of specs/Wanted.antt; what holds of the string is in specs/Theorems.antt and specs/Files.antt. No string is
// searched for: the work is linear in the rows times the columns.
#![tactic(auto)]

ghost use Rattle.std.specs.Prelude.{◌≡◌, ◌+◌, ◌-◌, ◌*◌, ◌/◌, ◌%◌, ◌^◌, ◌≤◌, ◌<◌, eqb, length, get_or, set};
ghost use Rattle.laws.specs.Digits.{digit};
ghost use Rattle.laws.specs.Smallest.{smallest};
ghost use Rattle.laws.specs.Lay.{lay};
ghost use Rattle.laws.specs.Outcome.{laid, mapped};
ghost use Rattle.fields.specs.Fields.{packed, width};
ghost use Rattle.fields.specs.Refusal.{answered};
ghost use Rattle.files.specs.Matrix.{ones_in};
ghost use Rattle.walk.specs.Walk.{file_rows};
ghost use Rattle.walk.specs.Intervals.{first_number};
ghost use Rattle.wanted.specs.Wanted.{column_of, string_bytes, string_found, wanted_of};

use fields::{Refusal, bit, width};
use files::check;

// The rows behind the header of a matrix file, as many and as long as its checks say.
#[derive(Clone, Copy)]
struct Rows<'a> {
    file: &'a [u8],
    rows: usize,
    columns: usize,
    ghost few_rows: { rows ≤ 65535 },
    ghost few_columns: { columns ≤ 65535 },
}

impl Rows<'_> {
    // The bit of a row in column c.
    fn bit(self, row: usize, c: usize) -> u8
        requires { row < self.rows }
        ensures { (result ≡ file_rows self.entry.file.now self.entry.columns row c) × (result < 2) }
    {
        bit(self.file, 8 + row * width(self.columns), c)
    }

    // The first column in which a row has a 1.
    fn first_set(self, row: usize) -> Option<usize>
        requires { row < self.rows }
        ensures { let n = self.entry.columns in
            column_of result ≡ smallest n (λ c. eqb (file_rows self.entry.file.now n row c) 1) }
    {
        (0..self.columns).find(|c| self.bit(row, *c) == 1)
    }

    // How many of the rows from `from` up to `to` have a 1 in column c.
    fn ones(self, from: usize, to: usize, c: usize) -> usize
        requires { (from ≤ to) × (to ≤ self.rows) }
        ensures { let rows = file_rows self.entry.file.now self.entry.columns in
            (result + ones_in rows from c ≡ ones_in rows to c) × (result ≤ to) }
    {
        (from..to).map(|v| usize::from(self.bit(v, c))).sum()
    }

    // Lays the smallest string that hits a row in column c, packed, at the front of `string`. Its bits up to a column spell 2T + e, with T
    // of the columns before that one; in column c, e is the number of set rows above the row. So the bit of a column is e % 2; and as T is
    // twice T of one column less, and the ones of that column, e is there e / 2 and these ones. The bits after column c are 0.
    fn lay_string(self, row: usize, c: usize, string: &mut [u8])
        requires { (row < self.rows) × (c < self.columns) × (width self.columns ≤ length string.old) }
        ensures { let n = self.entry.columns in
            let x = first_number (file_rows self.entry.file.now n) self.entry.rows n row c in
            string.new ≡ lay (packed n (digit n x)) string.old }
    {
        clear(self.columns, string);
        let mut e = self.ones(row + 1, self.rows, c);
        add_bit(string, c, (e % 2) as u8);
        for i in (0..c).rev() {
            e = e / 2 + self.ones(0, self.rows, i);
            add_bit(string, i, (e % 2) as u8);
        }
    }
}

// Lays n bits of 0, packed, at the front of `string`.
fn clear(n: usize, string: &mut [u8])
    requires { width n ≤ length string.old }
    ensures { string.new ≡ lay (packed n (λ i. 0)) string.old }
{
    string[..width(n)].fill(0);
}

// Adds b to bit i of packed bits, where that is 0.
fn add_bit(string: &mut [u8], i: usize, b: u8)
    requires { (i / 8 < length string.old) × (b ≤ 1) × (get_or string.old (i / 8) 0 + b * 2 ^ (7 - i % 8) < 2 ^ 8) }
    ensures { let bytes = string.old in
        string.new ≡ set bytes (i / 8) (get_or bytes (i / 8) 0 + b * 2 ^ (7 - i % 8)) }
{
    string[i / 8] += b << (7 - i % 8);
}

// Lays the smallest string on which the walk of a file hits a row, packed, at the front of `string`, or nothing where the row is all zero;
// or refusal 1 to 6 for the file, 3 for the row, then 13.
pub fn string_for(file: &[u8], row: usize, string: &mut [u8]) -> Result<bool, Refusal>
    ensures { let o = wanted_of file.now row (length string.old) in
        (answered result ≡ mapped string_found o) × (string.new ≡ lay (laid string_bytes o) string.old) }
{
    let size = check(file)?;
    if size.rows <= row {
        return Err(Refusal::Size);
    }
    if string.len() < width(size.columns) {
        return Err(Refusal::Buffer);
    }
    let rows = Rows {
        file,
        rows: size.rows,
        columns: size.columns,
    };
    match rows.first_set(row) {
        None => Ok(false),
        Some(c) => {
            rows.lay_string(row, c, string);
            Ok(true)
        }
    }
}

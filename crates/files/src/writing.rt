// Matrix files: writing (01, "Files").
ghost use Rattle.std.specs.Prelude.{◌≡◌, false, ℕ, ◌+◌, ◌*◌, ◌≤◌, ◌<◌, length, get_or};
ghost use Rattle.laws.specs.Lists.{blocks};
ghost use Rattle.laws.specs.Lay.{lay, lay_at};
ghost use Rattle.laws.specs.Outcome.{laid, mapped};
ghost use Rattle.fields.specs.Refusal.{answered};
ghost use Rattle.fields.specs.Limits.{most_columns};
ghost use Rattle.fields.specs.Fields.{packed, width};
ghost use Rattle.files.specs.Matrix.{most_rows};
ghost use Rattle.files.specs.Files.{above_one, write_of};

use crate::headers::{Sizes, write_header};
use crate::live::Rows;
use fields::{Bits, Refusal, pack_bits, width};

// Whether any of the first n entries is neither 0 nor 1.
fn any_above_one(entries: &[u8], n: usize) -> bool
    requires { n ≤ length entries.now }
    ensures { result ≡ above_one n entries.now }
{
    entries[..n].iter().any(|entry| 1 < *entry)
}

// The entries of a row from place `at` on, each a bit.
#[derive(Drop)]
struct Entries<'a> {
    row: &'a [u8],
    at: usize,
    ghost few: { (i : ℕ) → get_or row.now i 0 ≤ 1 },
}

impl Bits for Entries<'_> {
    ghost bits = { λ entries i. get_or entries.row.now (entries.at + i) 0 };

    fn next_bit(&mut self) -> u8 {
        if self.at < self.row.len() {
            let entry = self.row[self.at];
            self.at += 1;
            entry
        } else {
            0
        }
    }
}

// Packs the entries of a row into the bytes that they take.
fn pack_row(row: &[u8], bytes: &mut [u8])
    requires { (length row.now ≤ 65535) × (length bytes.old ≡ width (length row.now)) ×
        ((i : ℕ) → i < length row.now → get_or row.now i 0 ≤ 1) }
    ensures { bytes.new ≡ packed (length row.now) (λ i. get_or row.now i 0) }
{
    let mut entries = Entries { row, at: 0 };
    pack_bits(row.len(), bytes, &mut entries);
}

// Lays the rows of a matrix of these sizes, packed, behind the header of `file`.
fn pack_rows(sizes: Sizes, entries: &[u8], file: &mut [u8])
    requires { let m = sizes.rows in let n = sizes.columns in
        (m ≤ most_rows) × (n ≤ most_columns) × (m * n ≤ length entries.now) × (8 + m * width n ≤ length file.old) ×
        (above_one (m * n) entries.now ≡ false) }
    ensures { let n = sizes.columns in
        file.new ≡ lay_at 8 (blocks sizes.rows (λ v. packed n (λ i. get_or entries.now (v * n + i) 0))) file.old }
{
    let Sizes { rows, columns } = sizes;
    // Rows by their place (tried: what `chunks_exact_mut` lends and is written to, no proof knows when its loop ends).
    let w = width(columns);
    for v in 0..rows {
        let from = v * columns;
        let at = 8 + v * w;
        pack_row(&entries[from..from + columns], &mut file[at..at + w]);
    }
}

// Writes the file of the matrix of these sizes that stands row after row in `entries`, at the front of `file`, and answers its length; or
// refusal 3, 13 for `entries`, 5, 6, then 13 for `file`.
pub fn write(sizes: Sizes, entries: &[u8], file: &mut [u8]) -> Result<usize, Refusal>
    ensures { let o = write_of sizes.rows sizes.columns entries.now (length file.old) in
        (answered result ≡ mapped length o) × (file.new ≡ lay (laid (λ bytes. bytes) o) file.old) }
{
    let Sizes { rows, columns } = sizes;
    if sizes.outside() {
        return Err(Refusal::Size);
    }
    if entries.len() < rows * columns {
        return Err(Refusal::Buffer);
    }
    if any_above_one(entries, rows * columns) {
        return Err(Refusal::Bit);
    }
    let matrix = Rows {
        sizes,
        bytes: entries,
        per: 1,
        stride: columns,
    };
    if !matrix.fit() {
        return Err(Refusal::Sum);
    }
    let length = write_header(sizes, file)?;
    pack_rows(sizes, entries, file);
    Ok(length)
}

// Matrix files: checking and reading (01, "Files").
ghost use Rattle.std.specs.Prelude.{◌≡◌, ◌+◌, ◌*◌, ◌≤◌, length};
ghost use Rattle.laws.specs.Lists.{blocks, upto};
ghost use Rattle.laws.specs.Lay.{lay, lay_at};
ghost use Rattle.laws.specs.Outcome.{laid, mapped};
ghost use Rattle.fields.specs.Refusal.{answered};
ghost use Rattle.fields.specs.Fields.{bit_of, width};
ghost use Rattle.files.specs.Matrix.{sizes};
ghost use Rattle.files.specs.Files.{body_of, matrix_of, read_of, Whole};

use crate::headers::{Sizes, read_header};
use crate::live::Rows;
use fields::{Refusal, bit, check_strings, width};

// The checks of the rows, 5 and 6, of a file whose header has passed.
fn body(file: &[u8], size: Sizes) -> Result<Sizes, Refusal>
    requires { Whole file.now size }
    ensures { answered result ≡ mapped sizes (body_of file.now size) }
{
    let Sizes { rows, columns } = size;
    let bytes = &file[8..];
    check_strings(rows, columns, bytes)?;
    let matrix = Rows {
        sizes: size,
        bytes,
        per: 8,
        stride: width(columns),
    };
    if !matrix.fit() {
        return Err(Refusal::Sum);
    }
    Ok(size)
}

// Checks a matrix file: its rows and columns, or refusal 1 to 6, of which 2 is tried before 1 where four bytes are there.
pub fn check(file: &[u8]) -> Result<Sizes, Refusal>
    ensures { answered result ≡ mapped sizes (matrix_of file.now) }
{
    let size = read_header(file)?;
    body(file, size)
}

// Fills `row` with the bits packed from byte `at` on, a byte each.
fn unpack_row(bytes: &[u8], at: usize, row: &mut [u8])
    ensures { row.new ≡ upto (length row.old) (bit_of bytes.now at) }
{
    for (c, entry) in row.iter_mut().enumerate() {
        *entry = bit(bytes, at, c);
    }
}

// Lays the packed rows of a matrix of these sizes into `entries`, row after row.
fn unpack(bytes: &[u8], sizes: Sizes, entries: &mut [u8])
    requires { sizes.rows * sizes.columns ≤ length entries.old }
    ensures { let n = sizes.columns in
        entries.new ≡ lay_at 0 (blocks sizes.rows (λ v. upto n (bit_of bytes.now (v * width n)))) entries.old }
{
    let Sizes { rows, columns } = sizes;
    // Rows by their place, as in `pack_rows`.
    let w = width(columns);
    for v in 0..rows {
        let from = v * columns;
        unpack_row(bytes, v * w, &mut entries[from..from + columns]);
    }
}

// Reads a matrix file: its rows and columns, with its entries laid row after row at the front of `entries`; or refusal 1 to 6, then 13 for
// `entries`.
pub fn read(file: &[u8], entries: &mut [u8]) -> Result<Sizes, Refusal>
    ensures { let o = read_of file.now (length entries.old) in
        (answered result ≡ mapped sizes o) × (entries.new ≡ lay (laid (λ M. M.entries) o) entries.old) }
{
    let size = check(file)?;
    if entries.len() < size.rows * size.columns {
        return Err(Refusal::Buffer);
    }
    unpack(&file[8..], size, entries);
    Ok(size)
}

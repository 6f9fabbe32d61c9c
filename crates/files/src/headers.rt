// The header of a matrix file: its sizes, reading one and writing one (01, "Files").
ghost use Rattle.std.specs.Prelude.{◌≡◌, false, ◌<◌, length};
ghost use Rattle.laws.specs.Lay.{lay};
ghost use Rattle.laws.specs.Outcome.{laid, mapped};
ghost use Rattle.fields.specs.Refusal.{answered};
ghost use Rattle.files.specs.Matrix.{sizes_outside};
ghost use Rattle.files.specs.Files.{file_length, header_of, write_header_of};
ghost use Rattle.files.specs.Sizes.{Sized};

use fields::{COLUMNS, Refusal, field, outside, put_field, width};

// The largest number of rows.
pub const ROWS: usize = 128;

// The sizes of a matrix: m and n. It is the type of the definitions in specs/Matrix.antt.
#[derive(Clone, Copy, Debug, PartialEq, Eq)]
pub struct Sizes {
    pub rows: usize,
    pub columns: usize,
}

impl Sizes {
    // Whether the number of rows or that of columns is outside its limit.
    pub fn outside(self) -> bool
        ensures { result ≡ sizes_outside self.rows self.columns }
    {
        outside(ROWS, self.rows) | outside(COLUMNS, self.columns)
    }

    // The length of a file with these sizes.
    fn file_length(self) -> usize
        requires { sizes_outside self.rows self.columns ≡ false }
        ensures { (result ≡ file_length self.rows self.columns) × (result < 65536) × Sized self.rows self.columns }
    {
        8 + self.rows * width(self.columns)
    }
}

// The header's checks: 1 for under four bytes, 2, 1 for what is cut short, 3, 4 (02, order 3).
pub(crate) fn read_header(file: &[u8]) -> Result<Sizes, Refusal>
    ensures { answered result ≡ header_of file.now }
{
    if file.len() < 4 {
        return Err(Refusal::Short);
    }
    if field(file, 2) != 32 {
        return Err(Refusal::Kind);
    }
    if file.len() < 8 {
        return Err(Refusal::Short);
    }
    let length = field(file, 0);
    if file.len() < length {
        return Err(Refusal::Short);
    }
    let size = Sizes {
        rows: field(file, 4),
        columns: field(file, 6),
    };
    if size.outside() {
        return Err(Refusal::Size);
    }
    if length != size.file_length() {
        return Err(Refusal::Length);
    }
    if file.len() != length {
        return Err(Refusal::Length);
    }
    Ok(size)
}

// Writes the header of a file of these sizes at the front of `file`, and answers the length of that file; or refusal 3, then 13 where
// `file` has no room for it.
pub fn write_header(sizes: Sizes, file: &mut [u8]) -> Result<usize, Refusal>
    ensures { let o = write_header_of sizes.rows sizes.columns (length file.old) in
        (answered result ≡ mapped (λ h. file_length sizes.rows sizes.columns) o) ×
        (file.new ≡ lay (laid (λ h. h) o) file.old) }
{
    if sizes.outside() {
        return Err(Refusal::Size);
    }
    let length = sizes.file_length();
    if file.len() < length {
        return Err(Refusal::Buffer);
    }
    put_field(file, 0, length as u16);
    put_field(file, 2, 32);
    put_field(file, 4, sizes.rows as u16);
    put_field(file, 6, sizes.columns as u16);
    Ok(length)
}

// The rows of a matrix file, read without the engine's walk.
ghost use Rattle.std.specs.Prelude.{◌*◌, ◌≤◌, ◌<◌};

use std::io;
use std::io::Write;

// The bytes of a row, or of a string, of the most columns.
pub(crate) const WIDTH: usize = 24;

// The sum of byte j of each row of `width` bytes; beyond the file's end a byte is 0.
fn column_sum(file: &[u8], rows: usize, width: usize, j: usize) -> usize
    requires { (rows < 65536) × (width < 65536) × (j < 65536) }
    ensures { result ≤ 255 * rows }
{
    // A loop: the bound of an iterator's `sum` takes lemmas on all that the chain yields, and here it is an invariant of one line.
    let mut sum = 0;
    for v in 0..rows {
        sum += file.get(8 + j + v * width).map_or(0, |x| usize::from(*x));
    }
    sum
}

// Prints the bytes of a number whose part above them is `top`, and a newline.
fn print_number<W: Write>(out: &mut W, top: usize, bytes: &[u8]) -> io::Result<()> {
    write!(out, "{top:x}")?;
    for byte in bytes {
        write!(out, "{byte:02x}")?;
    }
    writeln!(out)
}

// T, the sum of the rows, for columns that fill their bytes.
pub(crate) fn print_total<W: Write>(out: &mut W, file: &[u8]) -> io::Result<()> {
    let rows = fields::field(file, 4);
    let width = fields::width(fields::field(file, 6));
    // no row is longer, so that the sum needs no memory of its own
    let mut sum = [0u8; WIDTH];
    let mut carry: usize = 0;
    let used = WIDTH.min(width);
    for j in (0..used).rev() {
        carry += column_sum(file, rows, width, j);
        sum[j] = (carry % 256) as u8;
        carry /= 256;
    }
    print_number(out, carry, &sum[..used])
}

// The highest row with a 1 in its first `columns` columns, or 0 where there is none.
pub(crate) fn highest(file: &[u8], columns: usize) -> usize {
    let rows = fields::field(file, 4);
    let width = fields::width(fields::field(file, 6));
    (0..rows)
        .rev()
        .find(|v| (0..columns).any(|c| fields::bit(file, 8 + *v * width, c) == 1))
        .unwrap_or(0)
}

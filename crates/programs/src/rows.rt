// The rows of a program: the bits that write the number of one, and the outputs that suit them (02, orders 6 and 10).
ghost use Rattle.std.specs.Prelude.{◌≡◌};
ghost use Rattle.programs.specs.Limits.{suited, value_bits};

use crate::description::Program;
use fields::outside;

// k, the bits needed to write rows - 1; 0 for rows that are not 1 to 128. By the cases that 02, order 6 lists, which a formula of leading
// zeros would hide.
pub fn row_bits(rows: usize) -> usize
    ensures { result ≡ value_bits rows }
{
    match rows {
        1 => 0,
        2 => 1,
        3..=4 => 2,
        5..=8 => 3,
        9..=16 => 4,
        17..=32 => 5,
        33..=64 => 6,
        65..=128 => 7,
        _ => 0,
    }
}

// Whether rows are 1 to 128 and outputs are their value bits plus 1.
pub fn suited(rows: usize, outputs: usize) -> bool
    ensures { result ≡ suited rows outputs }
{
    !outside(Program::ROWS, rows) & (outputs == 1 + row_bits(rows))
}

// A table of 64 rows of 64 bits, turned over its diagonal by shifts and masks: slicing and the reading of samples both are that turn.
// Which machine instructions it takes does not depend on a bit of the table.
ghost use Rattle.std.specs.Prelude.{◌≡◌, ◌+◌, ◌*◌, ◌≤◌, ◌<◌, length};
ghost use Rattle.lanes.specs.Transposing.{Crossed, Exchanged, Front, Round, Table, side, transposed};

use fields::lesser;

// The rows of a table, and the bits of a row.
pub(crate) const SIDE: usize = 64;

// In rows k to k + 2 d - 1: exchanges the bits of the first n rows outside the mask with those of the n rows d behind them inside it. One
// index serves both rows, where slices of the two halves would have to be cut and zipped.
fn exchange_block(rows: &mut [u64; SIDE], k: usize, n: usize, d: usize, mask: u64)
    requires { (0 < d) × (n ≤ d) × (k + 2 * d ≤ side) × (length rows.old ≡ side) }
    ensures { Crossed d mask k (k + n) rows.old rows.new }
{
    for i in k..k + n {
        let x = rows[i];
        let y = rows[i + d];
        let crossing = ((x >> d) ^ y) & mask;
        rows[i] = x ^ (crossing << d);
        rows[i + d] = y ^ crossing;
    }
}

// One round: exchanges the halves of rows and columns, in blocks of 2 d.
fn exchange(rows: &mut [u64; SIDE], d: usize, mask: u64)
    requires { Round d mask × Table rows.old }
    ensures { Exchanged d side rows.old rows.new }
{
    for k in (0..SIDE).step_by(2 * d) {
        exchange_block(rows, k, d, d, mask);
    }
}

// Turns the table over its diagonal, in six rounds: bit c of row r becomes bit r of row c. Rows from `set` on are zero: in the first round
// those of them below row 32 and those 32 behind them stay so, and need no exchange.
pub(crate) fn transpose(rows: &mut [u64; SIDE], set: usize)
    requires { Table rows.old × Front set rows.old }
    ensures { rows.new ≡ transposed rows.old }
{
    exchange_block(rows, 0, lesser(set, 32), 32, 0x0000_0000_ffff_ffff);
    exchange(rows, 16, 0x0000_ffff_0000_ffff);
    exchange(rows, 8, 0x00ff_00ff_00ff_00ff);
    exchange(rows, 4, 0x0f0f_0f0f_0f0f_0f0f);
    exchange(rows, 2, 0x3333_3333_3333_3333);
    exchange(rows, 1, 0x5555_5555_5555_5555);
}

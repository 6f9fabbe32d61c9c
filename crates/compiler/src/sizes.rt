// What a program takes, known before a byte of it is written: k, the live counts, and the number of instructions (01, "Translation").
ghost use Rattle.std.specs.Prelude.{◌≡◌, ◌+◌, ◌-◌, ◌*◌, ◌≤◌, min, length};
ghost use Rattle.laws.specs.Lists.{blocks};
ghost use Rattle.files.specs.Matrix.{ones_in, most_rows};
ghost use Rattle.fields.specs.Fields.{width};
ghost use Rattle.fields.specs.Limits.{most_columns};
ghost use Rattle.programs.specs.Limits.{most_instructions};
ghost use Rattle.programs.specs.Header.{header_length};
ghost use Rattle.programs.specs.Width.{row_bits};
ghost use Rattle.compiler.specs.Translation.{column};
ghost use Rattle.compiler.specs.Room.{Roomy};
ghost use Rattle.compiler.specs.EmittingColumns.{Live, Marked, packed_rows, Passed};
ghost use Rattle.compiler.specs.EmittingProgram.{Measured, Packed};

use crate::registers::Layout;
use crate::rows::Rows;
use fields::{lesser, width};
use programs::{Instruction, Program, row_bits};

// The set rows of a column, and the instructions that mark them.
#[derive(Clone, Copy)]
pub(crate) struct Marks {
    pub rows: usize,
    pub instructions: usize,
}

// Counts column c of some rows: each set row v takes one instruction for H and one for each set bit of v.
fn count_marks(rows: Rows, c: usize) -> Marks
    requires { (rows.layout.m ≤ most_rows) × (rows.stride ≤ most_columns) }
    ensures { Marked (λ v. packed_rows rows.entry.bytes.now rows.entry.stride v c) rows.entry.layout.m result.rows result.instructions }
{
    let mut set: usize = 0;
    let mut instructions: usize = 0;
    for v in 0..rows.layout.m {
        let b = rows.bit(v, c);
        set += b;
        instructions += b * (1 + usize::count_ones(v) as usize);
    }
    Marks {
        rows: set,
        instructions,
    }
}

// What is counted of a column: its marks, and the live count after it.
#[derive(Clone, Copy)]
pub(crate) struct ColumnCounts {
    pub marks: Marks,
    pub live: usize,
}

// Counts column c of some rows, before which the live count is h. After it that is the smaller of 2h less the ones and m.
pub(crate) fn count_column(rows: Rows, c: usize, h: usize) -> ColumnCounts
    requires { let bits = packed_rows rows.bytes.now rows.stride in let m = rows.layout.m in
        (m ≤ most_rows) × (rows.stride ≤ most_columns) × Live bits m c h × (ones_in bits m c ≤ 2 * h) }
    ensures { let bits = packed_rows rows.entry.bytes.now rows.entry.stride in
        Passed bits rows.entry.layout.m c h result.marks.rows result.marks.instructions result.live }
{
    let marks = count_marks(rows, c);
    let live = lesser(2 * h - marks.rows, rows.layout.m);
    ColumnCounts { marks, live }
}

// The instructions of all n columns of some rows.
fn count_columns(rows: Rows, n: usize) -> usize
    requires { let m = rows.layout.m in
        (m ≤ most_rows) × (n ≤ most_columns) × (rows.stride ≤ most_columns) × Roomy m n (packed_rows rows.bytes.now rows.stride) }
    ensures { let m = rows.entry.layout.m in
        result ≡ length (blocks n (column (row_bits m) m (packed_rows rows.entry.bytes.now rows.entry.stride))) }
{
    let mut h: usize = 1;
    let mut count: usize = 0;
    for c in 0..n {
        let passed = count_column(rows, c, h);
        count += 2 + 2 * h + passed.marks.instructions + passed.live;
        h = passed.live;
    }
    count
}

// The bytes of a program whose n columns are `count` instructions: each of those takes 10, but for the INPUT and the NOT of a column, which
// take 8.
fn program_length(k: usize, n: usize, count: usize) -> usize
    requires { (3 + 2 * k + count ≤ most_instructions) × (4 * n ≤ 10 * count) }
    ensures { result ≡ header_length + 6 * (2 + k) + 10 * count - 4 * n + 8 * (1 + k) }
{
    Program::HEADER + Instruction::LENGTH_ONE * (2 + k) + Instruction::LENGTH_THREE * count - 4 * n
        + Instruction::LENGTH_TWO * (1 + k)
}

// What is measured of a program: its rows, the instructions of its columns, and its bytes.
#[derive(Clone, Copy)]
pub(crate) struct Measures<'a> {
    pub rows: Rows<'a>,
    pub count: usize,
    pub length: usize,
}

// Measures the program of m packed rows of n bits.
pub(crate) fn measure(bytes: &[u8], m: usize, n: usize) -> Measures<'_>
    requires { Packed bytes.now m n }
    ensures rows { (result.rows.bytes.now ≡ bytes.now) × (result.rows.stride ≡ width n) × (result.rows.layout.m ≡ m) }
    ensures measured { Measured bytes.now m n result.rows.layout.k result.count result.length }
{
    let rows = Rows {
        bytes,
        stride: width(n),
        layout: Layout { k: row_bits(m), m },
    };
    let count = count_columns(rows, n);
    let length = program_length(rows.layout.k, n, count);
    Measures {
        rows,
        count,
        length,
    }
}

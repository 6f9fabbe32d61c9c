// The columns of a program (01, "Translation").
ghost use Rattle.std.specs.Prelude.{◌+◌, ◌*◌, ◌≤◌, ◌<◌};
ghost use Rattle.laws.specs.Lists.{blocks};
ghost use Rattle.files.specs.Matrix.{ones_in};
ghost use Rattle.fields.specs.Limits.{most_columns};
ghost use Rattle.compiler.specs.Translation.{column, if_set, mark, marks};
ghost use Rattle.compiler.specs.Room.{Roomy};
ghost use Rattle.compiler.specs.Emitting.{Emitted, Fit, Space};
ghost use Rattle.compiler.specs.EmittingColumns.{Live, packed_rows, Shape};

use crate::parts::{keep, mark, split};
use crate::registers::Layout;
use crate::rows::Rows;
use crate::sizes::count_column;

// The mark of row v, the set row met j-th, if its bit b is set.
fn mark_if(b: usize, layout: Layout, v: usize, j: usize, out: &mut [u8], at: usize) -> usize
    requires { let is = if_set b (mark layout.k layout.m v j) in
        Space at is out.old × Fit layout.k layout.m × (j < layout.m) }
    ensures { Emitted at (if_set b (mark layout.k layout.m v j)) out.old out.new result }
{
    if b == 0 {
        return at;
    }
    mark(layout, v, j, out, at)
}

// The marks of column c, from the last row to the first.
fn marks(rows: Rows, c: usize, out: &mut [u8], at: usize) -> usize
    requires { let k = rows.layout.k in let m = rows.layout.m in
        Space at (marks k m (λ v. packed_rows rows.bytes.now rows.stride v c) m 0) out.old × Shape k m rows.stride }
    ensures { let k = rows.entry.layout.k in let m = rows.entry.layout.m in
        Emitted at (marks k m (λ v. packed_rows rows.entry.bytes.now rows.entry.stride v c) m 0) out.old out.new result }
{
    let mut to = at;
    let mut j: usize = 0;
    for v in (0..rows.layout.m).rev() {
        let b = rows.bit(v, c);
        to = mark_if(b, rows.layout, v, j, out, to);
        j += b;
    }
    to
}

// The byte behind a column, and the live count after it.
#[derive(Clone, Copy)]
struct Done {
    at: usize,
    live: usize,
}

// Column c, before which the live count is h.
fn column(rows: Rows, c: usize, h: usize, out: &mut [u8], at: usize) -> Done
    requires { let bits = packed_rows rows.bytes.now rows.stride in let k = rows.layout.k in let m = rows.layout.m in
        Space at (column k m bits c) out.old × Shape k m rows.stride × (c < most_columns) × Live bits m c h × (ones_in bits m c ≤ 2 * h) }
    ensures { let bits = packed_rows rows.entry.bytes.now rows.entry.stride in let k = rows.entry.layout.k in let m = rows.entry.layout.m in
        Emitted at (column k m bits c) out.old out.new result.at × Live bits m (c + 1) result.live }
{
    let passed = count_column(rows, c, h);
    let mut to = split(rows.layout, c, h, out, at);
    to = marks(rows, c, out, to);
    to = keep(rows.layout, passed.marks.rows, passed.live, out, to);
    Done {
        at: to,
        live: passed.live,
    }
}

// All n columns.
pub(crate) fn columns(rows: Rows, n: usize, out: &mut [u8], at: usize) -> usize
    requires { let bits = packed_rows rows.bytes.now rows.stride in let k = rows.layout.k in let m = rows.layout.m in
        Space at (blocks n (column k m bits)) out.old × Shape k m rows.stride × (n ≤ most_columns) × Roomy m n bits }
    ensures { let bits = packed_rows rows.entry.bytes.now rows.entry.stride in
        Emitted at (blocks n (column rows.entry.layout.k rows.entry.layout.m bits)) out.old out.new result }
{
    let mut h: usize = 1;
    let mut to = at;
    for c in 0..n {
        let done = column(rows, c, h, out, to);
        to = done.at;
        h = done.live;
    }
    to
}

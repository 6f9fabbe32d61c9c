// The parts of a program that do not look at the matrix (01, "Translation"). Each is written at byte `at` of a buffer that has room for
// it, and answers the byte behind it. A writer of both would hold the loan of the buffer, and each contract would have to promise besides
// that it is still the same one, as it was with the words of a run (machine, src/steps.rt): no plainer.
ghost use Rattle.std.specs.Prelude.{◌∷◌, [], ◌+◌, ◌≤◌, ◌<◌};
ghost use Rattle.programs.specs.Limits.{most_outputs};
ghost use Rattle.compiler.specs.Translation.{apart, begin, end, if_set, keep, mark, split};
ghost use Rattle.compiler.specs.Emitting.{Emitted, Fit, Space};

use crate::registers::{Layout, REG_B, REG_H, REG_N, reg_v};
use programs::{Instruction, encode};

// One instruction.
fn put(i: Instruction, out: &mut [u8], at: usize) -> usize
    requires { Space at (i ∷ []) out.old }
    ensures { Emitted at (i ∷ []) out.old out.new result }
{
    let _ = encode(i, out, at);
    at + i.length()
}

// One instruction for a set bit, and none for a clear one.
fn put_if(b: usize, i: Instruction, out: &mut [u8], at: usize) -> usize
    requires { Space at (if_set b (i ∷ [])) out.old }
    ensures { Emitted at (if_set b (i ∷ [])) out.old out.new result }
{
    if b == 0 {
        return at;
    }
    put(i, out, at)
}

// X_0 set, H and each V clear.
pub(crate) fn begin(layout: Layout, out: &mut [u8], at: usize) -> usize
    requires { Space at (begin layout.k) out.old × (1 + layout.k ≤ most_outputs) }
    ensures { Emitted at (begin layout.k) out.old out.new result }
{
    let mut to = put(Instruction::Ones(layout.reg_x(0)), out, at);
    to = put(Instruction::Zero(REG_H), out, to);
    for t in 0..layout.k {
        to = put(Instruction::Zero(reg_v(t)), out, to);
    }
    to
}

// Distance i becomes 2i or 2i + 1.
fn apart(layout: Layout, i: usize, out: &mut [u8], at: usize) -> usize
    requires { Space at (apart layout.k layout.m i) out.old × Fit layout.k layout.m × (i < layout.m) }
    ensures { Emitted at (apart layout.k layout.m i) out.old out.new result }
{
    let from = layout.reg_x(i);
    let to = put(Instruction::And(layout.reg_y(2 * i), from, REG_N), out, at);
    put(
        Instruction::And(layout.reg_y(2 * i + 1), from, REG_B),
        out,
        to,
    )
}

// Bit c is read, and each of the h live distances is doubled.
pub(crate) fn split(layout: Layout, c: usize, h: usize, out: &mut [u8], at: usize) -> usize
    requires { Space at (split layout.k layout.m c h) out.old × Fit layout.k layout.m × (c < 65536) × (h ≤ layout.m) }
    ensures { Emitted at (split layout.k layout.m c h) out.old out.new result }
{
    let mut to = put(Instruction::Input(REG_B, c as u16), out, at);
    to = put(Instruction::Not(REG_N, REG_B), out, to);
    for i in 0..h {
        to = apart(layout, i, out, to);
    }
    to
}

// Row v is the set row met j-th: H, and V_t for each set bit t of v, lowest first.
pub(crate) fn mark(layout: Layout, v: usize, j: usize, out: &mut [u8], at: usize) -> usize
    requires { Space at (mark layout.k layout.m v j) out.old × Fit layout.k layout.m × (j < layout.m) }
    ensures { Emitted at (mark layout.k layout.m v j) out.old out.new result }
{
    let y = layout.reg_y(j);
    let mut to = put(Instruction::Or(REG_H, REG_H, y), out, at);
    for t in 0..layout.k {
        let bit = reg_v(t);
        to = put_if((v >> t) & 1, Instruction::Or(bit, bit, y), out, to);
    }
    to
}

// After w set rows distance w + i is distance i, for each of the h that stay live.
pub(crate) fn keep(layout: Layout, w: usize, h: usize, out: &mut [u8], at: usize) -> usize
    requires { Space at (keep layout.k layout.m w h) out.old × Fit layout.k layout.m × (w ≤ layout.m) × (h ≤ layout.m) }
    ensures { Emitted at (keep layout.k layout.m w h) out.old out.new result }
{
    let mut to = at;
    for i in 0..h {
        let x = layout.reg_x(i);
        let y = layout.reg_y(w + i);
        to = put(Instruction::Or(x, y, y), out, to);
    }
    to
}

// H, then each V.
pub(crate) fn end(layout: Layout, out: &mut [u8], at: usize) -> usize
    requires { Space at (end layout.k) out.old × (1 + layout.k ≤ most_outputs) }
    ensures { Emitted at (end layout.k) out.old out.new result }
{
    let mut to = put(Instruction::Output(0, REG_H), out, at);
    for t in 0..layout.k {
        to = put(Instruction::Output((1 + t) as u16, reg_v(t)), out, to);
    }
    to
}

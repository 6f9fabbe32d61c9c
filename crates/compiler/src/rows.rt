// The packed rows of a matrix, read bit by bit.
ghost use Rattle.std.specs.Prelude.{◌≡◌, ◌≤◌, ◌<◌};
ghost use Rattle.files.specs.Matrix.{most_rows};
ghost use Rattle.fields.specs.Limits.{most_columns};
ghost use Rattle.compiler.specs.EmittingColumns.{packed_rows};

use crate::registers::Layout;
use fields::bit;

// Packed rows, row v from byte v * stride on, and the layout of their program's registers, whose m counts them.
#[derive(Clone, Copy)]
pub(crate) struct Rows<'a> {
    pub bytes: &'a [u8],
    pub stride: usize,
    pub layout: Layout,
}

impl Rows<'_> {
    // Bit c of row v.
    pub(crate) fn bit(self, v: usize, c: usize) -> usize
        requires { (v ≤ most_rows) × (self.stride ≤ most_columns) }
        ensures { (result ≡ packed_rows self.entry.bytes.now self.entry.stride v c) × (result < 2) }
    {
        bit(self.bytes, v * self.stride, c) as usize
    }
}

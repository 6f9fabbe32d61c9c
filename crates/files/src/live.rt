// Whether a matrix's rows sum to at most 2^n, with no number larger than the rows (01, "Misreadings to shut out": not in 64 bits).
ghost use Rattle.std.specs.Prelude.{◌≡◌, ℕ, ◌+◌, ◌*◌, ◌/◌, ◌≤◌, ◌<◌, length};
ghost use Rattle.fields.specs.Fields.{packed_bit};
ghost use Rattle.files.specs.Matrix.{ones_in};
ghost use Rattle.files.specs.Live.{rows_fit, There};

use crate::headers::Sizes;
use fields::lesser;

// The rows of a matrix of these sizes: bits packed `per` to a byte, row v from byte v * stride on.
#[derive(Clone, Copy)]
pub(crate) struct Rows<'a> {
    pub sizes: Sizes,
    pub bytes: &'a [u8],
    pub per: usize,
    pub stride: usize,
    ghost there: { There per stride sizes.rows sizes.columns (length bytes.now) },
}

impl Rows<'_> {
    // The ones of column c.
    fn ones(&self, c: usize) -> usize
        requires { c < self.now.sizes.columns }
        ensures { let s = self.now in result ≡ ones_in (λ v. packed_bit s.per s.bytes.now (v * s.stride)) s.sizes.rows c }
    {
        let first = c / self.per;
        let shift = self.per - 1 - c % self.per;
        (0..self.sizes.rows)
            .map(|v| usize::from((self.bytes[v * self.stride + first] >> shift) & 1))
            .sum()
    }

    // Whether T is at most 2^n. After each column h is the smaller of m and the number of places of the tree that are still open; a column
    // with more ones than there are places has no room.
    pub(crate) fn fit(&self) -> bool
        ensures { let s = self.now in result ≡ rows_fit s.bytes.now s.per s.stride s.sizes.rows s.sizes.columns }
    {
        let Sizes { rows, columns } = self.sizes;
        let mut h: usize = 1;
        for c in 0..columns {
            let w = self.ones(c);
            if 2 * h < w {
                return false;
            }
            h = lesser(2 * h - w, rows);
        }
        true
    }
}

// Sizes and their limits (01, "Matrix and walk").
ghost use Rattle.std.specs.Prelude.{◌≡◌, min};
ghost use Rattle.fields.specs.Limits.{outside};

// The largest number of columns (02, order 8): the bits of a row and of a string.
pub const COLUMNS: usize = 192;

// Whether a size is outside 1 to `most`.
pub fn outside(most: usize, x: usize) -> bool
    ensures { result ≡ outside most x }
{
    !(1..=most).contains(&x)
}

// The smaller of two numbers.
pub fn lesser(a: usize, b: usize) -> usize
    ensures { result ≡ min a b }
{
    a.min(b)
}

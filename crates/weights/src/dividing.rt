// Long division, one bit a step (01, "Matrix and walk": "Weights").
ghost use Rattle.std.specs.Prelude.{◌≡◌, ◌^◌, ◌≤◌, ◌<◌, length};
ghost use Rattle.fields.specs.Fields.{packed, width};
ghost use Rattle.weights.specs.Weights.{quotient};

use fields::{Bits, pack_bits};

// A division by s, and what the bits found so far have left.
#[derive(Clone, Copy)]
struct Division {
    s: u64,
    rest: u64,
    ghost small: { (rest ≤ s) × (s < 2 ^ 40) },
}

impl Bits for Division {
    ghost bits = { λ division i. quotient division.s division.rest i };

    // The next bit of the quotient.
    fn next_bit(&mut self) -> u8 {
        let twice = 2 * self.rest;
        if self.s <= twice {
            self.rest = twice - self.s;
            1
        } else {
            self.rest = twice;
            0
        }
    }
}

// Packs the n bits of the quotient of 2^n × w by s into the bytes that they take.
pub(crate) fn divide_row(w: u64, s: u64, n: usize, bytes: &mut [u8])
    requires { (w ≤ s) × (s < 2 ^ 40) × (length bytes.old ≡ width n) }
    ensures { bytes.new ≡ packed n (quotient s w) }
{
    let mut division = Division { s, rest: w };
    pack_bits(n, bytes, &mut division);
}

// Bits packed into bytes, the first in the highest bit (01, "Files").
ghost use Rattle.std.specs.Prelude.{◌≡◌, ℕ, ◌+◌, ◌*◌, ◌≤◌, ◌<◌, length};
ghost use Rattle.laws.specs.Digits.{number};
ghost use Rattle.laws.specs.Lists.{upto};
ghost use Rattle.fields.specs.Fields.{PackedByte, Padded, Taken, bit_of, padded, spare, width};

// The bytes that n bits take, whatever n is: no sum here can wrap.
pub fn width(n: usize) -> usize
    ensures { result ≡ width n }
{
    n / 8 + (n % 8 + 7) / 8
}

// Bit i of the bits packed from byte `at` on, bit 0 the highest of the first byte; bits beyond the end are 0.
pub fn bit(bytes: &[u8], at: usize, i: usize) -> u8
    ensures { (result ≡ bit_of bytes.now at i) × (result < 2) }
{
    if bytes.len() <= at {
        return 0;
    }
    if bytes.len() - at <= i / 8 {
        return 0;
    }
    (bytes[at + i / 8] >> (7 - i % 8)) & 1
}

// Whether the last of the bytes that hold n bits from byte `at` on has a spare bit set.
pub(crate) fn spare_set(bytes: &[u8], n: usize, at: usize) -> bool
    requires { (0 < n) × (n ≤ 65535) × (at + width n ≤ length bytes.now) }
    ensures { result ≡ spare bytes.now n at }
{
    let w = width(n);
    let last = bytes[at + w - 1] as usize;
    last % (1usize << (8 * w - n)) != 0
}

// Bits, one after another.
pub trait Bits {
    ghost bits: { Self → ℕ → ℕ };

    // Takes the next bit.
    fn next_bit(&mut self) -> u8
        ensures { Taken (bits self.old) result (bits self.new) };
}

// The next bit, while there are any left; otherwise 0.
fn padded_bit<B: Bits>(t: usize, left: usize, source: &mut B) -> u8
    ensures { Padded left (B.bits source.old) t result (B.bits source.new) }
{
    if t < left { source.next_bit() } else { 0 }
}

// The next 8 bits, packed.
fn full_byte<B: Bits>(source: &mut B) -> u8
    ensures { (left : ℕ) → 8 ≤ left → PackedByte left (B.bits source.old) result (B.bits source.new) }
{
    let mut byte: u8 = 0;
    for t in 0..8usize {
        byte = 2 * byte + source.next_bit();
    }
    byte
}

// The next 8 bits, packed, of which `left` are left: 0 from there on.
fn padded_byte<B: Bits>(left: usize, source: &mut B) -> u8
    ensures { PackedByte left (B.bits source.old) result (B.bits source.new) }
{
    let mut byte: u8 = 0;
    for t in 0..8 {
        byte = 2 * byte + padded_bit(t, left, source);
    }
    byte
}

// The same, with no bit tried where all 8 are left.
fn packed_byte<B: Bits>(left: usize, source: &mut B) -> u8
    ensures { PackedByte left (B.bits source.old) result (B.bits source.new) }
{
    if 8 <= left {
        full_byte(source)
    } else {
        padded_byte(left, source)
    }
}

// Packs n bits into the bytes that they take: as many as there are, and bytes behind them are 0.
pub fn pack_bits<B: Bits>(n: usize, bytes: &mut [u8], source: &mut B)
    ensures { bytes.new ≡ upto (length bytes.old) (λ q. number (padded n (B.bits source.old)) (8 * q) 8) }
{
    let mut left = n;
    for byte in bytes.iter_mut() {
        *byte = packed_byte(left, source);
        left = left.saturating_sub(8);
    }
}

// The 64-bit FNV-1a hash.
use crate::elements::Element;

// What the hash of nothing is.
pub const EMPTY: u64 = 0xcbf2_9ce4_8422_2325;

const PRIME: u64 = 0x100_0000_01b3;

// A hash with one more: each of its bytes, the lowest first.
pub fn with<T: Element>(hash: u64, x: T) -> u64 {
    x.bits().to_le_bytes().iter().take(T::BYTES).fold(
        hash,
        |grown, byte| (grown ^ u64::from(*byte)).wrapping_mul(PRIME),
    )
}

// A hash with more.
pub fn with_all<T: Element>(hash: u64, xs: &[T]) -> u64 {
    xs.iter().fold(hash, |grown, x| with(grown, *x))
}

// Strings of bits, packed as a matrix row is (01, "Runs, words, samples").
ghost use Rattle.std.specs.Prelude.{◌≡◌, ◌*◌, ◌≤◌, ◌<◌, length};
ghost use Rattle.fields.specs.Fields.{width};
ghost use Rattle.fields.specs.Refusal.{answered};
ghost use Rattle.fields.specs.Strings.{any_spare, strings_of};

use crate::bits::{spare_set, width};
use crate::limits::{COLUMNS, outside};
use crate::refusals::Refusal;

// Whether a spare bit is set in any of `count` packed strings of n bits, one after another.
fn any_spare(bytes: &[u8], count: usize, n: usize) -> bool
    requires { (0 < n) × (n ≤ 65535) × (count * width n ≤ length bytes.now) }
    ensures { result ≡ any_spare count n bytes.now }
{
    let w = width(n);
    (0..count).any(|v| spare_set(bytes, n, v * w))
}

// Checks `count` strings of `columns` bits, one after another at the front of `bytes`: refusal 3, 13 or 5, or sound.
pub fn check_strings(count: usize, columns: usize, bytes: &[u8]) -> Result<(), Refusal>
    ensures { answered result ≡ strings_of count columns bytes.now }
{
    if outside(COLUMNS, columns) {
        return Err(Refusal::Size);
    }
    if bytes.len() / width(columns) < count {
        return Err(Refusal::Buffer);
    }
    if any_spare(bytes, count, columns) {
        return Err(Refusal::Bit);
    }
    Ok(())
}

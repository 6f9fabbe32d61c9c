// Records are made of 16-bit fields (01, "Files").
ghost use Rattle.std.specs.Prelude.{◌≡◌, ◌<◌, get_or};
ghost use Rattle.fields.specs.Fields.{field_of, stored};

// The byte at `at`; beyond the end it is 0.
fn byte(bytes: &[u8], at: usize) -> u8
    ensures { (result ≡ get_or bytes.now at 0) × (result < 256) }
{
    bytes.get(at).copied().unwrap_or(0)
}

// The 16-bit field at `at`, lowest byte first; bytes beyond the end are 0.
pub fn field(bytes: &[u8], at: usize) -> usize
    ensures value { result ≡ field_of bytes.now at }
    ensures upper_bound { result < 65536 }
{
    if bytes.len() <= at {
        return 0;
    }
    usize::from(u16::from_le_bytes([byte(bytes, at), byte(bytes, at + 1)]))
}

// Stores x as the 16-bit field at `at`; where there is no room for it, nothing.
pub fn put_field(bytes: &mut [u8], at: usize, x: u16)
    ensures { bytes.new ≡ stored bytes.old at x }
{
    if bytes.len() < 2 {
        return;
    }
    if bytes.len() - 2 < at {
        return;
    }
    let [low, high] = x.to_le_bytes();
    bytes[at] = low;
    bytes[at + 1] = high;
}

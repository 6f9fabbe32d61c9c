// Fields in bytes that hold them, for loops that have tried the room already (01, "Files"). Private here and in the machine, since no
// public function has a precondition (docs/DECISIONS.md, "Reading a field in a loop").
ghost use Rattle.std.specs.Prelude.{◌≡◌, ◌+◌, ◌*◌, ◌≤◌, ◌<◌, length};
ghost use Rattle.fields.specs.Fields.{field_of};

// The 16-bit field at `at`, in bytes that hold it.
pub(crate) fn field_at(file: &[u8], at: usize) -> usize
    requires { at + 2 ≤ length file.now }
    ensures { (result ≡ field_of file.now at) × (result < 65536) }
{
    usize::from(u16::from_le_bytes([file[at], file[at + 1]]))
}

// The 32-bit number at `at`, in bytes that hold it.
pub(crate) fn wide_at(file: &[u8], at: usize) -> usize
    requires { at + 4 ≤ length file.now }
    ensures { let bytes = file.now in
        (result ≡ field_of bytes at + 65536 * field_of bytes (at + 2)) × (field_of bytes at < 65536) }
{
    field_at(file, at) + 65536 * field_at(file, at + 2)
}

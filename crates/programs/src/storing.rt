// Storing a record: a row of 16-bit fields, each lowest byte first (01, "Files").
ghost use Rattle.std.specs.Prelude.{◌≡◌, ◌+◌, ◌*◌, ◌≤◌, length};
ghost use Rattle.laws.specs.Lay.{lay_at};
ghost use Rattle.programs.specs.Records.{record_bytes};

// Stores fields from byte `at` on.
pub(crate) fn put_fields(out: &mut [u8], at: usize, fields: &[u16])
    requires { at + 2 * length fields.now ≤ length out.old }
    ensures { out.new ≡ lay_at at (record_bytes fields.now) out.old }
{
    for (i, x) in fields.iter().enumerate() {
        let [low, high] = x.to_le_bytes();
        out[at + 2 * i] = low;
        out[at + 2 * i + 1] = high;
    }
}

// The header of a program: reading one and writing one (01, "Files"; 02, order 10).
ghost use Rattle.std.specs.Prelude.{◌≡◌, true, ◌≤◌, length};
ghost use Rattle.laws.specs.Lay.{lay, lay_at};
ghost use Rattle.laws.specs.Outcome.{laid, mapped};
ghost use Rattle.fields.specs.Refusal.{answered};
ghost use Rattle.programs.specs.Limits.{within};
ghost use Rattle.programs.specs.Header.{header_length, header_bytes, header_of, write_header_of};

use crate::description::Program;
use crate::storing::put_fields;
use fields::{Refusal, field};

// The header at the front of a file: refusals 1 for under four bytes, 2, 1 for a header cut short, 4, 3 (02, orders 3 and 10).
#[tactic(auto, using(crate::proofs::Reading::short_headers))]
pub fn read_header(file: &[u8]) -> Result<Program, Refusal>
    ensures { answered result ≡ header_of file.now }
{
    if file.len() < 4 {
        return Err(Refusal::Short);
    }
    if field(file, 2) != Program::KIND {
        return Err(Refusal::Kind);
    }
    if file.len() < Program::HEADER {
        return Err(Refusal::Short);
    }
    if field(file, 0) != Program::HEADER {
        return Err(Refusal::Length);
    }
    let p = Program {
        registers: field(file, 4),
        inputs: field(file, 6),
        outputs: field(file, 8),
        rows: field(file, 10),
        count: (field(file, 12) + 65536 * field(file, 14)) as u32,
    };
    if !p.within() {
        return Err(Refusal::Size);
    }
    Ok(p)
}

// Stores a header that is within the limits at the front of `out`.
fn store_header(p: Program, out: &mut [u8])
    requires { (within p ≡ true) × (header_length ≤ length out.old) }
    ensures { out.new ≡ lay_at 0 (header_bytes p) out.old }
{
    // The count in two fields: the library has no halves of a number.
    put_fields(
        out,
        0,
        &[
            Program::HEADER as u16,
            Program::KIND as u16,
            p.registers as u16,
            p.inputs as u16,
            p.outputs as u16,
            p.rows as u16,
            (p.count % 65536) as u16,
            (p.count / 65536) as u16,
        ],
    );
}

// Writes a header at the front of `out`, and answers its length; or refusal 3 where it is outside the limits, then 13.
pub fn write_header(p: Program, out: &mut [u8]) -> Result<usize, Refusal>
    ensures { let o = write_header_of p (length out.old) in
        (answered result ≡ mapped length o) × (out.new ≡ lay (laid (λ bytes. bytes) o) out.old) }
{
    if !p.within() {
        return Err(Refusal::Size);
    }
    if out.len() < Program::HEADER {
        return Err(Refusal::Buffer);
    }
    store_header(p, out);
    Ok(Program::HEADER)
}

// The bytes of an instruction: writing one and reading one (01, "Files").
ghost use Rattle.std.specs.Prelude.{◌≡◌, ◌+◌, ◌≤◌, length};
ghost use Rattle.laws.specs.Lay.{lay_at};
ghost use Rattle.laws.specs.Outcome.{laid, mapped};
ghost use Rattle.fields.specs.Refusal.{answered};
ghost use Rattle.programs.specs.Instructions.{decode_at, decode_of, encode_of, instruction_bytes, kind_of, length_of, of_kind};

use crate::description::Instruction;
use crate::storing::put_fields;
use fields::{Refusal, field};

// The instruction of a kind, with as many of the operands as it takes; refusal 7 for a kind that is not 1 to 7.
fn of_kind(kind: usize, to: u16, a: u16, b: u16) -> Result<Instruction, Refusal>
    ensures { answered result ≡ of_kind kind to a b }
{
    match kind {
        Instruction::KIND_ONES => Ok(Instruction::Ones(to)),
        Instruction::KIND_ZERO => Ok(Instruction::Zero(to)),
        Instruction::KIND_INPUT => Ok(Instruction::Input(to, a)),
        Instruction::KIND_NOT => Ok(Instruction::Not(to, a)),
        Instruction::KIND_AND => Ok(Instruction::And(to, a, b)),
        Instruction::KIND_OR => Ok(Instruction::Or(to, a, b)),
        Instruction::KIND_OUTPUT => Ok(Instruction::Output(to, a)),
        _ => Err(Refusal::Instruction),
    }
}

// The instruction at the front of the bytes, whose length field must be its kind's.
fn front(bytes: &[u8]) -> Result<Instruction, Refusal>
    ensures { answered result ≡ decode_of bytes.now }
{
    if bytes.len() < 4 {
        return Err(Refusal::Short);
    }
    let length = field(bytes, 0);
    if bytes.len() < length {
        return Err(Refusal::Short);
    }
    let to = field(bytes, 4) as u16;
    let a = field(bytes, 6) as u16;
    let b = field(bytes, 8) as u16;
    let i = of_kind(field(bytes, 2), to, a, b)?;
    if length != i.length() {
        return Err(Refusal::Instruction);
    }
    Ok(i)
}

// The instruction at byte `at` of a file: refusals 1 and 7.
pub fn decode(file: &[u8], at: usize) -> Result<Instruction, Refusal>
    ensures { answered result ≡ decode_at file.now at }
{
    if file.len() < at {
        return Err(Refusal::Short);
    }
    front(&file[at..])
}

impl Instruction {
    // The instruction's kind.
    fn kind(self) -> u16
        ensures { result ≡ kind_of self }
    {
        match self {
            Self::Ones(_) => Self::KIND_ONES as u16,
            Self::Zero(_) => Self::KIND_ZERO as u16,
            Self::Input(..) => Self::KIND_INPUT as u16,
            Self::Not(..) => Self::KIND_NOT as u16,
            Self::And(..) => Self::KIND_AND as u16,
            Self::Or(..) => Self::KIND_OR as u16,
            Self::Output(..) => Self::KIND_OUTPUT as u16,
        }
    }

    // Stores the instruction at byte `at`, where it has room.
    fn store(self, out: &mut [u8], at: usize)
        requires { at + length_of self ≤ length out.old }
        ensures { out.new ≡ lay_at at (instruction_bytes self) out.old }
    {
        let n = self.length() as u16;
        let k = self.kind();
        match self {
            Self::Ones(to) | Self::Zero(to) => put_fields(out, at, &[n, k, to]),
            Self::Input(to, a) | Self::Not(to, a) | Self::Output(to, a) => {
                put_fields(out, at, &[n, k, to, a])
            }
            Self::And(to, a, b) | Self::Or(to, a, b) => put_fields(out, at, &[n, k, to, a, b]),
        }
    }
}

// Writes an instruction at byte `at` of `out`, and answers its length; or refusal 13 where it has no room there.
pub fn encode(i: Instruction, out: &mut [u8], at: usize) -> Result<usize, Refusal>
    ensures { let o = encode_of i at (length out.old) in
        (answered result ≡ mapped length o) × (out.new ≡ lay_at at (laid (λ bytes. bytes) o) out.old) }
{
    let length = i.length();
    if out.len() < at {
        return Err(Refusal::Buffer);
    }
    if out.len() - at < length {
        return Err(Refusal::Buffer);
    }
    i.store(out, at);
    Ok(length)
}

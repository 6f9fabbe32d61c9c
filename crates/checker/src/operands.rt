// One instruction: its operands, and what a check marks of it (01, "The engine's no": 1, 7, 8 and 9).
ghost use Rattle.std.specs.Prelude.{◌≡◌, true, ◌<◌, drop, length};
ghost use Rattle.laws.specs.Every.{every};
ghost use Rattle.laws.specs.Lists.{Each};
ghost use Rattle.fields.specs.Refusal.{answered};
ghost use Rattle.programs.specs.Limits.{most_outputs, most_registers, within};
ghost use Rattle.programs.specs.Instructions.{uses};
ghost use Rattle.checker.specs.Checks.{in_range, instruction_of};
ghost use Rattle.checker.specs.Operands.{flagged, Flags};

use fields::Refusal;
use programs::{Instruction, Program, decode};

// Whether each operand is below its count.
fn in_range(i: Instruction, p: Program) -> bool
    ensures { result ≡ in_range p i }
{
    let n = p.registers;
    match i {
        Instruction::Ones(to) | Instruction::Zero(to) => (to as usize) < n,
        Instruction::Input(to, x) => ((to as usize) < n) & ((x as usize) < p.inputs),
        Instruction::Not(to, a) => ((to as usize) < n) & ((a as usize) < n),
        Instruction::And(to, a, b) | Instruction::Or(to, a, b) => {
            ((to as usize) < n) & ((a as usize) < n) & ((b as usize) < n)
        }
        Instruction::Output(o, a) => ((a as usize) < n) & ((o as usize) < p.outputs),
    }
}

// Whether each register that an instruction reads is written.
fn readable(i: Instruction, written: &[bool; Program::REGISTERS]) -> bool
    requires { Each (λ r. r < most_registers) (uses i).reads }
    ensures { result ≡ every (flagged written.now) (uses i).reads }
{
    match i {
        Instruction::Not(_, a) | Instruction::Output(_, a) => written[a as usize],
        Instruction::And(_, a, b) | Instruction::Or(_, a, b) => {
            written[a as usize] & written[b as usize]
        }
        Instruction::Ones(_) | Instruction::Zero(_) | Instruction::Input(..) => true,
    }
}

// Marks the register that an instruction writes.
pub(crate) fn mark_register(i: Instruction, written: &mut [bool; Program::REGISTERS])
    requires { Each (λ r. r < most_registers) (uses i).writes × (length written.old ≡ most_registers) }
    ensures { Flags (uses i).writes written.old written.new }
{
    match i {
        Instruction::Ones(to)
        | Instruction::Zero(to)
        | Instruction::Input(to, _)
        | Instruction::Not(to, _)
        | Instruction::And(to, ..)
        | Instruction::Or(to, ..) => written[to as usize] = true,
        Instruction::Output(..) => {}
    }
}

// Marks the output that an instruction sets.
pub(crate) fn mark_output(i: Instruction, set: &mut [bool; Program::OUTPUTS])
    requires { Each (λ o. o < most_outputs) (uses i).sets × (length set.old ≡ most_outputs) }
    ensures { Flags (uses i).sets set.old set.new }
{
    if let Instruction::Output(o, _) = i {
        set[o as usize] = true;
    }
}

// The instruction at byte `at`: refusals 1, 7, 8 and 9.
pub(crate) fn admit(
    file: &[u8],
    at: usize,
    p: Program,
    written: &[bool; Program::REGISTERS],
) -> Result<Instruction, Refusal>
    requires { within p ≡ true }
    ensures { answered result ≡ instruction_of p (flagged written.now) (drop at file.now) }
{
    let i = decode(file, at)?;
    if !in_range(i, p) {
        return Err(Refusal::Operand);
    }
    if !readable(i, written) {
        return Err(Refusal::Unwritten);
    }
    Ok(i)
}

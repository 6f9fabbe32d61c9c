// Runs of ANDs and ORs, which are most of a program: passed without decoding them (01, "The engine's no": 1, 7, 8 and 9).
ghost use Rattle.std.specs.Prelude.{◌≡◌, true, ◌+◌, ◌≤◌, ◌<◌, length};
ghost use Rattle.programs.specs.Limits.{most_registers};
ghost use Rattle.checker.specs.GateRuns.{GateRun, Passes, SoundGate};

use crate::bytes::{field_at, wide_at};
use fields::lesser;
use programs::{Instruction, Left, Program};

// Whether the operands of the AND or OR at byte `at` are registers, and those that it reads written.
fn sound_gate(
    file: &[u8],
    at: usize,
    registers: usize,
    written: &[bool; Program::REGISTERS],
) -> bool
    requires { (at + 10 ≤ length file.now) × (registers ≤ most_registers) }
    ensures { result ≡ true → SoundGate file.now at registers written.now }
{
    let to = field_at(file, at + 4);
    let a = field_at(file, at + 6);
    let b = field_at(file, at + 8);
    if registers <= to {
        return false;
    }
    if registers <= a {
        return false;
    }
    if registers <= b {
        return false;
    }
    written[a] & written[b]
}

// Passes ANDs, or ORs, that no refusal is due for, as long as one follows another. The first that is none is left to `admit`. Most of a
// program is such runs: length and kind are tried as one number, and the room for all of them once. File, registers and marks are three
// arguments here and in two calls: a struct that holds the marks by reference would be lent anew in each.
fn gates(
    file: &[u8],
    from: Left,
    kind: usize,
    registers: usize,
    written: &mut [bool; Program::REGISTERS],
) -> Left
    requires { GateRun file.now from.at kind registers written.old }
    ensures { Passes file.now registers from.more from.at written.old result.more result.at written.new }
{
    let head = Instruction::LENGTH_THREE + 65536 * kind;
    let most = lesser(
        from.more,
        (file.len() - from.at) / Instruction::LENGTH_THREE,
    );
    let mut at = from.at;
    for done in 0..most {
        if wide_at(file, at) != head || !sound_gate(file, at, registers, written) {
            return Left {
                at,
                more: from.more - done,
            };
        }
        written[field_at(file, at + 4)] = true;
        at += Instruction::LENGTH_THREE;
    }
    Left {
        at,
        more: from.more - most,
    }
}

// Passes the ANDs, and then the ORs, that follow.
pub(crate) fn gate_runs(
    file: &[u8],
    from: Left,
    registers: usize,
    written: &mut [bool; Program::REGISTERS],
) -> Left
    requires { (registers ≤ most_registers) × (length written.old ≡ most_registers) × (from.at ≤ length file.now) }
    ensures { Passes file.now registers from.more from.at written.old result.more result.at written.new }
{
    let ors = gates(file, from, Instruction::KIND_AND, registers, written);
    gates(file, ors, Instruction::KIND_OR, registers, written)
}

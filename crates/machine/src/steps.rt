// Instructions carried out on words, straight from their bytes (01, "Files").
ghost use Rattle.std.specs.Prelude.{◌≡◌, refl, ℕ, true, ◌+◌, ◌*◌, ◌≤◌, ◌<◌, drop, length};
ghost use Rattle.fields.specs.Fields.{field_of};
ghost use Rattle.checker.specs.Standing.{Formed, Gate, Known, ReadyAt, Standing};
ghost use Rattle.machine.specs.Steps;
ghost use Rattle.machine.specs.Steps.{conjunction, disjunction, Does, Gates, gate_kind, gate_op, gate_words, gates_words, Kinds};
ghost use Rattle.machine.specs.Turns.{Along, RunLeaves};

use programs::{Instruction, Left};

// The 16-bit field at `at`, in bytes that hold it. The check has one of its own: one for both would be a public function with a
// precondition, and there is to be none (docs/DECISIONS.md).
pub(crate) fn field_at(file: &[u8], at: usize) -> usize
    requires { at + 2 ≤ length file.now }
    ensures { (result ≡ field_of file.now at) × (result < 65536) }
{
    usize::from(u16::from_le_bytes([file[at], file[at + 1]]))
}

// A kind of gates with two operands: AND and OR have one set of functions, which is compiled for each.
trait Connective {
    ghost which: { Steps.Connective };

    ghost KIND: { ℕ };

    const KIND: usize;

    fn join(a: u64, b: u64) -> u64
        ensures { result ≡ gate_op which a b };

    ghost numbered: { KIND ≡ gate_kind which };
}

struct And;

impl Connective for And {
    ghost which = { conjunction };

    ghost KIND = { 5 };

    const KIND: usize = Instruction::KIND_AND;

    fn join(a: u64, b: u64) -> u64 {
        a & b
    }

    ghost numbered = { refl };
}

struct Or;

impl Connective for Or {
    ghost which = { disjunction };

    ghost KIND = { 6 };

    const KIND: usize = Instruction::KIND_OR;

    fn join(a: u64, b: u64) -> u64 {
        a | b
    }

    ghost numbered = { refl };
}

// The gate at byte `at`.
fn gate_at<C: Connective>(file: &[u8], at: usize, registers: &mut [u64])
    requires { Gate file.now at (length registers.old) }
    ensures { registers.new ≡ gate_words C.which file.now at registers.old }
{
    let to = field_at(file, at + 4);
    let a = field_at(file, at + 6);
    let b = field_at(file, at + 8);
    registers[to] = C::join(registers[a], registers[b]);
}

// The instruction at byte `at`, of any kind; answers where the next one begins. Words that are lent travel as they are: methods of a
// struct that holds them would have to promise besides that every loan stays the same one.
fn step_at(
    file: &[u8],
    at: usize,
    inputs: &[u64],
    registers: &mut [u64],
    outputs: &mut [u64],
) -> usize
    requires { ReadyAt file.now at (length registers.old) (length inputs.now) (length outputs.old) }
    ensures { Does file.now at inputs.now registers.old outputs.old result registers.new
        outputs.new }
{
    let kind = field_at(file, at + 2);
    let to = field_at(file, at + 4);
    match kind {
        Instruction::KIND_AND => {
            gate_at::<And>(file, at, registers);
            at + Instruction::LENGTH_THREE
        }
        Instruction::KIND_OR => {
            gate_at::<Or>(file, at, registers);
            at + Instruction::LENGTH_THREE
        }
        Instruction::KIND_ONES => {
            registers[to] = u64::MAX;
            at + Instruction::LENGTH_ONE
        }
        Instruction::KIND_ZERO => {
            registers[to] = 0;
            at + Instruction::LENGTH_ONE
        }
        Instruction::KIND_INPUT => {
            registers[to] = inputs[field_at(file, at + 6)];
            at + Instruction::LENGTH_TWO
        }
        Instruction::KIND_NOT => {
            registers[to] = !registers[field_at(file, at + 6)];
            at + Instruction::LENGTH_TWO
        }
        // an OUTPUT, since the check has passed
        _ => {
            let from = field_at(file, at + 6);
            outputs[to] = registers[from];
            at + Instruction::LENGTH_TWO
        }
    }
}

// How many gates of one kind are carried out at a time, where so many follow each other.
const AT_A_TIME: usize = 4;

// Whether four gates of one kind follow each other from byte `at` on, where four instructions stand.
fn four<C: Connective>(file: &[u8], at: usize) -> bool
    requires { Standing 4 (drop at file.now) }
    ensures { result ≡ true → Kinds C.which file.now at 4 }
{
    for k in 0..AT_A_TIME {
        if field_at(file, at + k * Instruction::LENGTH_THREE + 2) != C::KIND {
            return false;
        }
    }
    true
}

// Four gates of one kind, from byte `at` on.
fn four_at<C: Connective>(file: &[u8], at: usize, registers: &mut [u64])
    requires { Gates file.now at (length registers.old) 4 }
    ensures { registers.new ≡ gates_words C.which file.now at 4 registers.old }
{
    for k in 0..AT_A_TIME {
        gate_at::<C>(file, at + k * Instruction::LENGTH_THREE, registers);
    }
}

// Gates of one kind, as long as four follow each other. No `for`: it counts turns, and what is left is the answer.
fn fours<C: Connective>(file: &[u8], from: Left, registers: &mut [u64]) -> Left
    requires { Known from.more (length registers.old) (drop from.at file.now) }
    ensures { Along file.now from.more from.at registers.old result.more result.at registers.new }
{
    let mut left = from;
    while AT_A_TIME <= left.more && four::<C>(file, left.at) {
        four_at::<C>(file, left.at, registers);
        left.at += AT_A_TIME * Instruction::LENGTH_THREE;
        left.more -= AT_A_TIME;
    }
    left
}

// Gates of one kind, as long as one follows another: a loop for each kind, since the next kind is then known in advance. As in `fours`,
// what is left is the answer, which a `for` would not count.
fn run_of<C: Connective>(file: &[u8], from: Left, registers: &mut [u64]) -> Left
    requires { Known from.more (length registers.old) (drop from.at file.now) }
    ensures { Along file.now from.more from.at registers.old result.more result.at registers.new }
{
    let mut left = fours::<C>(file, from, registers);
    while 0 < left.more && field_at(file, left.at + 2) == C::KIND {
        gate_at::<C>(file, left.at, registers);
        left.at += Instruction::LENGTH_THREE;
        left.more -= 1;
    }
    left
}

// The instructions that are left from a place on. No `for`: what a turn carries out is known after it.
pub(crate) fn run_from(
    file: &[u8],
    from: Left,
    inputs: &[u64],
    registers: &mut [u64],
    outputs: &mut [u64],
)
    requires { Formed from.more (length registers.old) (length inputs.now) (length outputs.old) (drop from.at file.now) }
    ensures { RunLeaves file.now from.at from.more inputs.now registers.old outputs.old
        registers.new outputs.new }
{
    let mut left = from;
    while 0 < left.more {
        left.at = step_at(file, left.at, inputs, registers, outputs);
        left.more -= 1;
        left = run_of::<And>(file, left, registers);
        left = run_of::<Or>(file, left, registers);
    }
}

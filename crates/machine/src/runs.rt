// Runs of a program within a budget: start and resume (01, "Runs, words, samples").
ghost use Rattle.std.specs.Prelude.{◌≡◌, ◌+◌, ◌-◌, ◌≤◌, ◌<◌, ◌||◌, ltb, drop, length};
ghost use Rattle.laws.specs.Lay.{lay};
ghost use Rattle.laws.specs.Outcome.{laid, mapped};
ghost use Rattle.programs.specs.Header.{header_length};
ghost use Rattle.fields.specs.Refusal.{answered};
ghost use Rattle.machine.specs.Runs.{resume_of, start_of};
ghost use Rattle.checker.specs.Standing.{Formed, Standing};
ghost use Rattle.machine.specs.Turns.{Ends, Past};

use crate::steps::{field_at, run_from};
use checker::check;
use fields::Refusal;
use programs::{Left, Program};

// What a run answers: whether it finished or stopped, at which position, the instructions it carried out, and the budget it had. No enum:
// 01 tells the position of both.
#[derive(Clone, Copy)]
pub struct Run {
    pub finished: bool,
    pub position: u32,
    pub count: u32,
    pub budget: u32,
}

// The byte at which instruction `position` begins.
fn skip(file: &[u8], count: usize, position: usize) -> usize
    requires { Standing count (drop header_length file.now) × (position ≤ count) }
    ensures { Past file.now header_length count position result }
{
    let mut at = Program::HEADER;
    for _ in 0..position {
        at += field_at(file, at);
    }
    at
}

// A run of an accepted program from a position on, with registers and outputs as they are: as many of its instructions as are left and the
// budget allows. Its seven parameters are what C passes to a resume.
fn carry_on(
    file: &[u8],
    count: u32,
    inputs: &[u64],
    registers: &mut [u64],
    outputs: &mut [u64],
    position: u32,
    budget: u32,
) -> Run
    requires { Formed count (length registers.old) (length inputs.now) (length outputs.old) (drop header_length file.now) ×
        (position ≤ count) }
    ensures { Ends file.now count inputs.now registers.old outputs.old position budget result
        registers.new outputs.new }
{
    let steps = budget.min(count - position);
    let from = Left {
        at: skip(file, count as usize, position as usize),
        more: steps as usize,
    };
    run_from(file, from, inputs, registers, outputs);
    Run {
        finished: position + steps == count,
        position: position + steps,
        count: steps,
        budget,
    }
}

// Whether a buffer is too short for a program.
fn lacks(p: Program, inputs: usize, registers: usize, outputs: usize) -> bool
    ensures { result ≡ (ltb inputs p.inputs || ltb registers p.registers || ltb outputs p.outputs) }
{
    (inputs < p.inputs) | (registers < p.registers) | (outputs < p.outputs)
}

// Starts a program on input words: registers and outputs are those of the program at the front of what is lent, cleared first. Answers
// the run, or a refusal of the program, then 13.
pub fn start(
    program: &[u8],
    inputs: &[u64],
    registers: &mut [u64],
    outputs: &mut [u64],
    budget: u32,
) -> Result<Run, Refusal>
    ensures { let o = start_of program.now inputs.now registers.old outputs.old budget in
        (answered result ≡ mapped (λ x. x.answer) o) ×
        ((registers.new ≡ lay (laid (λ x. x.state.registers) o) registers.old) ×
        (outputs.new ≡ lay (laid (λ x. x.state.outputs) o) outputs.old)) }
{
    let p = check(program)?;
    if lacks(p, inputs.len(), registers.len(), outputs.len()) {
        return Err(Refusal::Buffer);
    }
    let registers = &mut registers[..p.registers]; // no word beyond these is cleared
    let outputs = &mut outputs[..p.outputs];
    registers.fill(0);
    outputs.fill(0);
    Ok(carry_on(program, p.count, inputs, registers, outputs, 0, budget))
}

// Resumes a program at a position, with registers and outputs as they are lent. Answers the run, or a refusal of the program, then 12,
// then 13.
pub fn resume(
    program: &[u8],
    inputs: &[u64],
    registers: &mut [u64],
    outputs: &mut [u64],
    position: u32,
    budget: u32,
) -> Result<Run, Refusal>
    ensures { let o = resume_of program.now inputs.now registers.old outputs.old position budget in
        (answered result ≡ mapped (λ x. x.answer) o) ×
        ((registers.new ≡ lay (laid (λ x. x.state.registers) o) registers.old) ×
        (outputs.new ≡ lay (laid (λ x. x.state.outputs) o) outputs.old)) }
{
    let p = check(program)?;
    if p.count < position {
        return Err(Refusal::Position);
    }
    if lacks(p, inputs.len(), registers.len(), outputs.len()) {
        return Err(Refusal::Buffer);
    }
    let registers = &mut registers[..p.registers];
    let outputs = &mut outputs[..p.outputs]; // as they are
    Ok(carry_on(
        program, p.count, inputs, registers, outputs, position, budget,
    ))
}

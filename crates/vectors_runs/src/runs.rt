// Runs of a program in parts, each as the one before left it.
use case_lines::BYTES;
use case_lines::answers::{print_answer, print_hash, print_list, refuse};
use case_lines::cases::Case;
use case_lines::hashes::{EMPTY, with, with_all};
use fields::Refusal;
use machine::{Run, State};
use programs::Program;
use std::io;
use std::io::Write;

// As many registers as the header of an accepted program names, and as many outputs.
pub(crate) fn registers_of(program: &[u8]) -> usize {
    fields::field(program, 4)
}

pub(crate) fn outputs_of(program: &[u8]) -> usize {
    fields::field(program, 8)
}

// What a run answers, and the count of it, or of all runs up to it.
pub(crate) fn told(run: Run, count: u32) -> [usize; 3] {
    [
        run.position as usize,
        count as usize,
        usize::from(run.finished),
    ]
}

// What the runs of a program have come to: the last one, the count of all of them, and a hash of their numbers, registers and outputs.
#[derive(Clone, Copy)]
struct Runs {
    last: Option<Run>,
    count: u32,
    hash: u64,
}

impl Runs {
    // These and one more, which left registers and outputs.
    fn and(self, run: Run, registers: &[u64], outputs: &[u64]) -> Runs {
        let mut hash = with(self.hash, run.position);
        hash = with(hash, run.count);
        hash = with(hash, u8::from(run.finished));
        hash = with_all(hash, registers);
        Runs {
            last: Some(run),
            count: self.count.wrapping_add(run.count),
            hash: with_all(hash, outputs),
        }
    }
}

// Runs a program with each of the budgets: the first run starts it, and each further one resumes it where the last one stopped.
fn run_all(
    program: &[u8],
    inputs: &[u64],
    budgets: &[u32],
    state: &mut State,
) -> Result<Runs, Refusal> {
    let r = Program::REGISTERS.min(registers_of(program));
    let o = Program::OUTPUTS.min(outputs_of(program));
    let mut runs = Runs {
        last: None,
        count: 0,
        hash: EMPTY,
    };
    for budget in budgets {
        let registers = &mut state.registers;
        let outputs = &mut state.outputs;
        let run = match runs.last {
            None => machine::start(program, inputs, registers, outputs, *budget)?,
            Some(last) => {
                machine::resume(program, inputs, registers, outputs, last.position, *budget)?
            }
        };
        runs = runs.and(run, &state.registers[..r], &state.outputs[..o]);
    }
    Ok(runs)
}

// Prints what is left of a program's runs: the last one with the count of all of them, the outputs, and the hash.
pub(crate) fn print_runs<W: Write>(
    out: &mut W,
    program: &[u8],
    inputs: &[u64],
    budgets: &[u32],
) -> io::Result<()> {
    let mut state = State::fresh();
    match run_all(program, inputs, budgets, &mut state) {
        Err(why) => refuse(out, why),
        Ok(runs) => {
            let last = runs.last.unwrap_or(Run {
                finished: false,
                position: 0,
                count: 0,
                budget: 0,
            });
            let o = Program::OUTPUTS.min(outputs_of(program));
            print_answer(out, Ok(told(last, runs.count)))?;
            print_list(out, &state.outputs[..o])?;
            print_hash(out, runs.hash)
        }
    }
}

// FILE INPUTS BUDGETS
pub(crate) fn stops_case<W: Write>(out: &mut W, case: Case, program: &mut [u8]) -> io::Result<()> {
    let file: Vec<u8> = case.list(1, BYTES)?;
    let inputs: Vec<u64> = case.list(2, Program::INPUTS)?;
    let budgets: Vec<u32> = case.list(3, 16)?;
    match compiler::compile(&file, program) {
        Err(why) => refuse(out, why),
        Ok(n) => {
            let made = &program[..program.len().min(n)];
            print_runs(out, made, &inputs, &budgets)
        }
    }
}

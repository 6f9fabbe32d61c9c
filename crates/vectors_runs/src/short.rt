// The cases of programs that stand in their line.
use crate::runs::{outputs_of, registers_of, told};
use case_lines::BYTES;
use case_lines::answers::print_answer;
use case_lines::cases::Case;
use case_lines::lent::Lent;
use fields::Refusal;
use machine::Run;
use programs::Program;
use std::io;
use std::io::Write;

// Room for the registers or the outputs that a line gives, or that are lent.
const WORDS: usize = 32;

pub(crate) fn print_checked<W: Write>(out: &mut W, program: &[u8]) -> io::Result<()> {
    let answer = checker::check(program);
    print_answer(
        out,
        answer.map(|p| [p.registers, p.inputs, p.outputs, p.rows, p.count as usize]),
    )
}

// PROGRAM
pub(crate) fn check_case<W: Write>(out: &mut W, case: Case) -> io::Result<()> {
    let program: Vec<u8> = case.list(1, BYTES)?;
    print_checked(out, &program)
}

// The answer of a start or a resume: the program's own registers and outputs are its result, and the other words must be what they
// were before.
fn print_ran<W: Write>(
    out: &mut W,
    answer: Result<Run, Refusal>,
    program: &[u8],
    registers: &Lent<u64>,
    outputs: &Lent<u64>,
) -> io::Result<()> {
    print_answer(out, answer.map(|run| told(run, run.count)))?;
    registers.print(out, answer.ok().map(|_| registers_of(program)))?;
    outputs.print(out, answer.ok().map(|_| outputs_of(program)))
}

// PROGRAM INPUTS registers-lent outputs-lent budget
pub(crate) fn start_case<W: Write>(out: &mut W, case: Case) -> io::Result<()> {
    let program: Vec<u8> = case.list(1, BYTES)?;
    let inputs: Vec<u64> = case.list(2, Program::INPUTS)?;
    let mut registers: Lent<u64> = case.lent(3, WORDS)?;
    let mut outputs: Lent<u64> = case.lent(4, WORDS)?;
    let budget = case.short(5);
    let answer = machine::start(&program, &inputs, registers.lend(), outputs.lend(), budget);
    print_ran(out, answer, &program, &registers, &outputs)
}

// A resume is lent words with what they hold, at a position: what the two cases share is `print_ran`.
//
// PROGRAM INPUTS REGISTERS OUTPUTS position budget
pub(crate) fn resume_case<W: Write>(out: &mut W, case: Case) -> io::Result<()> {
    let program: Vec<u8> = case.list(1, BYTES)?;
    let inputs: Vec<u64> = case.list(2, Program::INPUTS)?;
    let mut registers: Lent<u64> = case.lent_list(3, WORDS)?;
    let mut outputs: Lent<u64> = case.lent_list(4, WORDS)?;
    let position = case.short(5);
    let budget = case.short(6);
    let answer = machine::resume(
        &program,
        &inputs,
        registers.lend(),
        outputs.lend(),
        position,
        budget,
    );
    print_ran(out, answer, &program, &registers, &outputs)
}

// The cases of programs that are too long for a line, of which the middle part is repeated.
ghost use Rattle.std.specs.Prelude.{◌≡◌, ◌≤◌, length, IfOk};

use crate::runs::print_runs;
use crate::short::print_checked;
use case_lines::cases::Case;
use case_lines::{BYTES, PROGRAM};
use programs::Program;
use std::io;
use std::io::Write;

// Lays a part at byte `at` of a program, as much as there is room for, and answers the byte behind it.
fn append(program: &mut [u8], at: usize, part: &[u8]) -> usize
    requires { at ≤ length program.old }
    ensures { (result ≤ length program.new) × (length program.new ≡ length program.old) }
{
    let n = part.len().min(program.len() - at);
    program[at..at + n].copy_from_slice(&part[..n]);
    at + n
}

// Lays the program of FIRST MIDDLE times LAST, as much as there is room for, at the front of `program`, and answers its length.
fn lay_program(case: Case, program: &mut [u8]) -> io::Result<usize>
    ensures { IfOk result (λ n. n ≤ length program.new) }
{
    let first: Vec<u8> = case.list(1, PROGRAM)?;
    let middle: Vec<u8> = case.list(2, BYTES)?;
    let last: Vec<u8> = case.list(4, BYTES)?;
    let mut at = append(program, 0, &first);
    // no more turns than there is room for
    let turns = (program.len() / middle.len().max(1)).saturating_add(1);
    for _ in 0..turns.min(case.size(3)) {
        at = append(program, at, &middle);
    }
    Ok(append(program, at, &last))
}

// FIRST MIDDLE times LAST
pub(crate) fn check_case<W: Write>(out: &mut W, case: Case, program: &mut [u8]) -> io::Result<()> {
    let n = lay_program(case, program)?;
    print_checked(out, &program[..n])
}

// FIRST MIDDLE times LAST INPUTS budget
pub(crate) fn start_case<W: Write>(out: &mut W, case: Case, program: &mut [u8]) -> io::Result<()> {
    let inputs: Vec<u64> = case.list(5, Program::INPUTS)?;
    let n = lay_program(case, program)?;
    print_runs(out, &program[..n], &inputs, &[case.short(6)])
}

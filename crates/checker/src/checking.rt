// The check of a program file: header first, then instruction by instruction, then what is left over (01, "The engine's no").
ghost use Rattle.std.specs.Prelude.{◌≡◌, not, true, ◌≤◌, length};
ghost use Rattle.std.specs.List.{list_any};
ghost use Rattle.laws.specs.Outcome.{mapped};
ghost use Rattle.programs.specs.Limits.{within};
ghost use Rattle.fields.specs.Refusal.{answered};
ghost use Rattle.programs.specs.Header.{header_length};
ghost use Rattle.checker.specs.Checks.{check_of, nothing};
ghost use Rattle.checker.specs.GateRuns.{rest_of};

use crate::gates::gate_runs;
use crate::operands::{admit, mark_output, mark_register};
use fields::Refusal;
use programs::{Left, Program, Seen, read_header};

// Whether one of some outputs is not set.
fn any_unset(set: &[bool]) -> bool
    ensures { result ≡ list_any not set.now }
{
    set.iter().any(|s| !*s)
}

// The instructions of a file whose header has passed, and what is left over. No `for`: a turn passes an instruction and any number of
// gates behind it.
fn body(file: &[u8], p: Program) -> Result<Program, Refusal>
    requires { (within p ≡ true) × (header_length ≤ length file.now) }
    ensures { answered result ≡ rest_of file.now p nothing nothing p.count header_length }
{
    let mut seen = Seen::fresh();
    let mut left = Left {
        at: Program::HEADER,
        more: p.count as usize,
    };
    while 0 < left.more {
        let i = admit(file, left.at, p, &seen.written)?;
        mark_register(i, &mut seen.written);
        mark_output(i, &mut seen.set);
        let behind = Left {
            at: left.at + i.length(),
            more: left.more - 1,
        };
        left = gate_runs(file, behind, p.registers, &mut seen.written);
    }
    if left.at < file.len() {
        return Err(Refusal::Length);
    }
    if any_unset(&seen.set[..p.outputs]) {
        return Err(Refusal::Unset);
    }
    Ok(p)
}

// Checks a program file: its registers, inputs, outputs, rows and count, or refusal 1 to 4 or 7 to 10, of which 2 is tried before a
// header's 1 where four bytes are there, and 4 for the header's length before 3.
pub fn check(program: &[u8]) -> Result<Program, Refusal>
    ensures { answered result ≡ mapped (λ c. c.program) (check_of program.now) }
{
    let p = read_header(program)?;
    body(program, p)
}

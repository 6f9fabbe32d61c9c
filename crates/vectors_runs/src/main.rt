// The reference's vectors of programs and their runs: checks, starts, resumes, and chains of them. Standard input has a case a line, and
// for each an answer is printed; both are made by the reference (reference/README.md).
#![tactic(auto)]

mod long;
mod runs;
mod short;

use case_lines::PROGRAM;
use case_lines::cases::Case;
use case_lines::lines::{Cases, Out, run_cases};
use std::io;

// Room for the program that a case makes: the next case uses it again.
#[derive(Drop)]
struct Room {
    program: Vec<u8>,
}

// The numbers of the cases stand in this place alone, so an enum of them would be a second list; what the programs share is `run_cases`.
impl Cases for Room {
    fn run(&mut self, out: &mut Out<'_>, case: Case) -> io::Result<()> {
        match case.size(0) {
            0x6 => short::check_case(out, case),
            0x7 => short::start_case(out, case),
            0x8 => short::resume_case(out, case),
            0x12 => runs::stops_case(out, case, &mut self.program),
            0x13 => long::check_case(out, case, &mut self.program),
            0x14 => long::start_case(out, case, &mut self.program),
            _ => Ok(()),
        }
    }
}

fn main(rt: HostRuntime) -> io::Result<()> {
    let program = vec![in rt.alloc(); 0u8; PROGRAM]?;
    run_cases(&rt, Room { program })
}

// The reference's vectors of matrix files and their programs: reading, writing, building, walking, adding up what walks use, finding
// strings for rows, and compiling.
// Standard input has a case a line, and for each an answer is printed; both are made by the reference (reference/README.md).
#![tactic(auto)]

mod matrices;

use case_lines::PROGRAM;
use case_lines::cases::Case;
use case_lines::lines::{Cases, Out, run_cases};
use std::io;

// Room for the program that a case makes: the next case uses it again.
#[derive(Drop)]
struct Room {
    program: Vec<u8>,
}

// The numbers of the cases stand in this place alone, so an enum of them would be a second list; what the programs share is `run_cases`.
impl Cases for Room {
    fn run(&mut self, out: &mut Out<'_>, case: Case) -> io::Result<()> {
        match case.size(0) {
            0x1 => matrices::read_case(out, case),
            0x2 => matrices::write_case(out, case),
            0x3 => matrices::build_case(out, case),
            0x4 => matrices::walk_case(out, case),
            0x5 => matrices::compile_case(out, case, &mut self.program),
            0xe => matrices::spent_case(out, case),
            0x10 => matrices::rewrite_case(out, case),
            0x18 => matrices::string_for_case(out, case),
            _ => Ok(()),
        }
    }
}

fn main(rt: HostRuntime) -> io::Result<()> {
    let program = vec![in rt.alloc(); 0u8; PROGRAM]?;
    run_cases(&rt, Room { program })
}

// The reference's vectors of lanes: slices, samples, draws in one call, and lists combined. Standard input has a case a line, and for
// each an answer is printed; both are made by the reference (reference/README.md).
#![tactic(auto)]

mod draws;
mod samples;

use case_lines::PROGRAM;
use case_lines::cases::Case;
use case_lines::lines::{Cases, Out, run_cases};
use std::io;

// Room for the program that a case makes: the next case uses it again.
#[derive(Drop)]
struct Room {
    program: Vec<u8>,
}

// The numbers of the cases stand in this place alone, so an enum of them would be a second list; what the programs share is `run_cases`.
impl Cases for Room {
    fn run(&mut self, out: &mut Out<'_>, case: Case) -> io::Result<()> {
        match case.size(0) {
            0x9 => samples::slice_case(out, case),
            0xa => samples::samples_case(out, case),
            0xb => samples::signed_samples_case(out, case),
            0xc => draws::draw_case(out, case),
            0xd => draws::draw_signed_case(out, case),
            0xf => samples::combine_case(out, case),
            0x11 => draws::draws_case(out, case, &mut self.program),
            _ => Ok(()),
        }
    }
}

fn main(rt: HostRuntime) -> io::Result<()> {
    let program = vec![in rt.alloc(); 0u8; PROGRAM]?;
    run_cases(&rt, Room { program })
}

// The reference's vectors of a pool: opening, drawing and refilling (02, order 9). Standard input has a case a line, and for each an
// answer is printed; both are made by the reference (reference/README.md).
#![tactic(auto)]

mod pools;

use case_lines::cases::Case;
use case_lines::lines::{Cases, Out, run_cases};
use std::io;

#[derive(Drop)]
struct Answers;

// The numbers of the cases stand in this place alone, so an enum of them would be a second list; what the programs share is `run_cases`.
impl Cases for Answers {
    fn run(&mut self, out: &mut Out<'_>, case: Case) -> io::Result<()> {
        match case.size(0) {
            0x19 => pools::open_case(out, case),
            0x1a => pools::draw_case(out, case),
            0x1b => pools::refill_case(out, case),
            _ => Ok(()),
        }
    }
}

fn main(rt: HostRuntime) -> io::Result<()> {
    run_cases(&rt, Answers)
}

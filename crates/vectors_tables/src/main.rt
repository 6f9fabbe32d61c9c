// The reference's vectors of cumulative tables: importing, exporting and looking up (02, order 4). Standard input has a case a line, and
// for each an answer is printed; both are made by the reference (reference/README.md).
#![tactic(auto)]

mod tables;

use case_lines::cases::Case;
use case_lines::lines::{Cases, Out, run_cases};
use std::io;

#[derive(Drop)]
struct Answers;

// The numbers of the cases stand in this place alone, so an enum of them would be a second list; what the programs share is `run_cases`.
impl Cases for Answers {
    fn run(&mut self, out: &mut Out<'_>, case: Case) -> io::Result<()> {
        match case.size(0) {
            0x15 => tables::import_case(out, case),
            0x16 => tables::export_case(out, case),
            0x17 => tables::lookup_case(out, case),
            _ => Ok(()),
        }
    }
}

fn main(rt: HostRuntime) -> io::Result<()> {
    run_cases(&rt, Answers)
}

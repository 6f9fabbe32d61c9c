// The cases of cumulative tables.
use case_lines::BYTES;
use case_lines::answers::{print_answer, print_written};
use case_lines::cases::Case;
use case_lines::lent::Lent;
use std::io;
use std::io::Write;

// Room for tables that are given or lent.
const NUMBERS: usize = 160;

// What a miss is printed as.
const MISS: usize = 255;

// TABLE columns file-lent
pub(crate) fn import_case<W: Write>(out: &mut W, case: Case) -> io::Result<()> {
    let table: Vec<u64> = case.list(1, NUMBERS)?;
    let mut file: Lent<u8> = case.lent(3, BYTES)?;
    let answer = cumulative::import(&table, case.size(2), file.lend());
    print_written(out, answer, &file)
}

// FILE table-lent
pub(crate) fn export_case<W: Write>(out: &mut W, case: Case) -> io::Result<()> {
    let file: Vec<u8> = case.list(1, BYTES)?;
    let mut table: Lent<u64> = case.lent(2, NUMBERS)?;
    let answer = cumulative::export(&file, table.lend());
    print_answer(out, answer.map(|extent| [extent.numbers, extent.columns]))?;
    table.print(out, answer.ok().map(|extent| extent.numbers))
}

// TABLE columns r
pub(crate) fn lookup_case<W: Write>(out: &mut W, case: Case) -> io::Result<()> {
    let table: Vec<u64> = case.list(1, NUMBERS)?;
    let answer = cumulative::lookup(&table, case.size(2), case.number(3));
    print_answer(out, answer.map(|sample| [sample.unwrap_or(MISS)]))
}

// The cases of matrix files.
use case_lines::BYTES;
use case_lines::answers::{print_answer, print_list, print_written};
use case_lines::cases::Case;
use case_lines::elements::Element;
use case_lines::lent::Lent;
use files::Sizes;
use std::io;
use std::io::Write;
use weights::Usage;

// Room for entries that are lent.
const ENTRIES: usize = 24_640;

// What a miss is printed as.
const MISS: usize = 255;

// m × n of a matrix.
fn product(sizes: Sizes) -> usize {
    sizes.rows.min(files::ROWS) * sizes.columns.min(fields::COLUMNS)
}

// FILE entries-lent
pub(crate) fn read_case<W: Write>(out: &mut W, case: Case) -> io::Result<()> {
    let file: Vec<u8> = case.list(1, BYTES)?;
    let mut entries: Lent<u8> = case.lent(2, ENTRIES)?;
    let answer = files::read(&file, entries.lend());
    print_answer(out, answer.map(|sizes| [sizes.rows, sizes.columns]))?;
    entries.print(out, answer.ok().map(product))
}

// rows columns ENTRIES file-lent
pub(crate) fn write_case<W: Write>(out: &mut W, case: Case) -> io::Result<()> {
    let sizes = Sizes {
        rows: case.size(1),
        columns: case.size(2),
    };
    let entries: Vec<u8> = case.list(3, BYTES)?;
    let mut file: Lent<u8> = case.lent(4, BYTES)?;
    let answer = files::write(sizes, &entries, file.lend());
    print_written(out, answer, &file)
}

// WEIGHTS columns signed file-lent; for plain use, signed is 0
pub(crate) fn build_case<W: Write>(out: &mut W, case: Case) -> io::Result<()> {
    let numbers: Vec<u32> = case.list(1, 256)?;
    let usage = if case.size(3) == 0 {
        Usage::Plain
    } else {
        Usage::Signed
    };
    let mut file: Lent<u8> = case.lent(4, BYTES)?;
    let answer = weights::build(&numbers, case.size(2), usage, file.lend());
    print_written(out, answer, &file)
}

// FILE STRING
pub(crate) fn walk_case<W: Write>(out: &mut W, case: Case) -> io::Result<()> {
    let file: Vec<u8> = case.list(1, BYTES)?;
    let string: Vec<u8> = case.list(2, BYTES)?;
    let answer = walk::walk(&file, &string);
    print_answer(out, answer.map(|w| [w.row.unwrap_or(MISS), w.used]))
}

// FILE STRINGS
pub(crate) fn spent_case<W: Write>(out: &mut W, case: Case) -> io::Result<()> {
    let file: Vec<u8> = case.list(1, BYTES)?;
    let strings: Vec<u8> = case.list(2, BYTES)?;
    let answer = spent::spent(&file, &strings);
    print_answer(out, answer.map(|total| [total]))
}

// FILE row string-lent; a string has as many bytes as the columns of its file take
pub(crate) fn string_for_case<W: Write>(out: &mut W, case: Case) -> io::Result<()> {
    let file: Vec<u8> = case.list(1, BYTES)?;
    let mut string: Lent<u8> = case.lent(3, BYTES)?;
    let answer = wanted::string_for(&file, case.size(2), string.lend());
    let width = fields::width(fields::COLUMNS.min(fields::field(&file, 6)));
    print_answer(out, answer.map(|found| [usize::from(found)]))?;
    string.print(out, answer.ok().map(|found| if found { width } else { 0 }))
}

// FILE, which is read; what was read is written
pub(crate) fn rewrite_case<W: Write>(out: &mut W, case: Case) -> io::Result<()> {
    let file: Vec<u8> = case.list(1, BYTES)?;
    let mut entries = [0u8; ENTRIES];
    let mut again: Lent<u8> = Lent::filled(case.alloc(), BYTES, BYTES)?;
    let answer = files::read(&file, &mut entries).and_then(|sizes| files::write(
        sizes,
        &entries,
        again.lend(),
    ));
    print_written(out, answer, &again)
}

// FILE program-lent; the program's room is too large for a second one to compare it with, so it is seen byte by byte
pub(crate) fn compile_case<W: Write>(
    out: &mut W,
    case: Case,
    program: &mut [u8],
) -> io::Result<()> {
    let file: Vec<u8> = case.list(1, BYTES)?;
    let lent = program.len().min(case.size(2));
    let room = program.len().min(lent.saturating_add(64));
    let program = &mut program[..room];
    program.fill(u8::FILL);
    let answer = compiler::compile(&file, &mut program[..lent]);
    print_answer(out, answer.map(|n| [n]))?;
    let laid = answer.unwrap_or(0).min(room);
    if answer.is_ok() {
        print_list(out, &program[..laid])?;
    }
    if program[laid..].iter().any(|x| *x != u8::FILL) {
        write!(out, " touched")?;
    }
    Ok(())
}

// Lines of standard input, one at a time. A failed read or write is passed on.
ghost use Rattle.std.specs.Prelude.{◌≡◌, ◌≤◌, ℕ, List, Some, length, take, IfOk, IfSome};
ghost use Rattle.std.specs.Io.BufRead.{take_through};

use crate::cases::Case;
use std::alloc::Global;
use std::io;
use std::io::{BufRead, BufReader, BufWriter, Printer, Read, Write};

// Room for the longest line, with its end.
const LINE: usize = 12_288;

// No program is given more lines than these.
const LINES: usize = 4096;

// Where a program prints.
pub type Out<'a> = BufWriter<Printer<'a, HostRuntime>>;

// Reads the next line, with its end: the front of the bytes that are left. There is none where the input has ended, or where the line is
// too long, which is said; no answer of the reference says so.
fn next_line<R: BufRead, W: Write>(
    alloc: Global,
    input: &mut R,
    out: &mut W,
) -> io::Result<Option<Vec<u8>>>
    ensures fits { IfOk result (λ next. IfSome next (λ line. length line.items ≤ 12288)) }
    ensures reads { (xs : List ℕ) → R.remaining input.old ≡ Some xs →
        IfOk result (λ next. IfSome next (λ line. line.items ≡ take_through 10 (take 12288 xs))) }
{
    let mut line = Vec::new(alloc);
    let n = Read::take(input, LINE as u64).read_until(b'\n', &mut line)?;
    if n == 0 {
        return Ok(None);
    }
    if LINE < n || n == LINE && !line.ends_with(b"\n") {
        writeln!(out, "a line is too long")?;
        return Ok(None);
    }
    Ok(Some(line))
}

// What a program does with a line, without its end.
pub trait Lines {
    fn run(&mut self, out: &mut Out<'_>, line: &[u8]) -> io::Result<()>;
}

// Runs a program on each line. There may be lines that were not read: that is said.
pub fn run_lines<L: Lines>(rt: &HostRuntime, lines: &mut L) -> io::Result<()> {
    let mut input = BufReader::new(rt.alloc(), rt.reader())?;
    let mut out = BufWriter::new(rt.alloc(), io::writer(rt))?;
    for _ in 0..LINES {
        let Some(line) = next_line(rt.alloc(), &mut input, &mut out)? else {
            return out.flush();
        };
        lines.run(&mut out, line.strip_suffix(b"\n").unwrap_or(&line))?;
    }
    writeln!(out, "too many lines")?;
    out.flush()
}

// What a program does with a case.
pub trait Cases {
    fn run(&mut self, out: &mut Out<'_>, case: Case) -> io::Result<()>;
}

// The answers of a program to cases: each is a line.
#[derive(Drop)]
struct Answers<C> {
    alloc: Global,
    cases: C,
}

impl<C: Cases> Lines for Answers<C> {
    fn run(&mut self, out: &mut Out<'_>, line: &[u8]) -> io::Result<()> {
        self.cases.run(out, Case::new(self.alloc, line))?;
        writeln!(out)
    }
}

// Runs a program on the case of each line.
pub fn run_cases<C: Cases + Drop>(rt: &HostRuntime, cases: C) -> io::Result<()> {
    let alloc = rt.alloc();
    let mut answers = Answers { alloc, cases };
    run_lines(rt, &mut answers)
}

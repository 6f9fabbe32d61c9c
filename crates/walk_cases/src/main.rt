// Walks that standard input lists, a line each: cases of the source documents. The matrices and what is printed were computed apart
// from the engine, by reference/walk_cases.py.
//
//     # TEXT   is printed as it stands
//     m HEX    the matrix file that the lines after it are about
//     s HEX    a packed string: it is printed, then the row that the walk hits or `miss`, and the columns used; or `refused` and the number
//     u HEX    64 packed strings, one after another: the columns that the walks on them have used together, or `refused` and the number
//     t        T, the sum of the matrix's rows, in hexadecimal: where it is 2^n, no string misses (`file-misses`, walk/Theorems)
//     h HEX    the highest row with a 1 in the first HEX columns: no string hits a row above it within them (`file-set`, walk/Theorems)
//
// A failed read or write ends the program with that error.
#![tactic(auto)]

ghost use Rattle.std.specs.Prelude.{◌≡◌, ◌≤◌, OnErr, length};

mod rows;

use case_lines::cases::{elements, number};
use case_lines::lines::{Lines, Out, run_lines};
use fields::Refusal;
use rows::{WIDTH, highest, print_total};
use std::alloc::Global;
use std::io;
use std::io::Write;
use walk::Walked;

// As in files_cases, one line.
fn print_refusal<W: Write>(out: &mut W, why: Refusal) -> io::Result<()> {
    writeln!(out, "refused {}", u32::from(why))
}

fn print_walked<W: Write>(out: &mut W, answer: Result<Walked, Refusal>) -> io::Result<()> {
    match answer {
        Err(why) => print_refusal(out, why),
        Ok(
            Walked {
                row: Some(row),
                used,
            },
        ) => writeln!(out, "{row} {used}"),
        Ok(Walked { row: None, used }) => writeln!(out, "miss {used}"),
    }
}

fn print_spent<W: Write>(out: &mut W, answer: Result<usize, Refusal>) -> io::Result<()> {
    match answer {
        Err(why) => print_refusal(out, why),
        Ok(total) => writeln!(out, "{total}"),
    }
}

// A string's line.
fn string_line<W: Write>(out: &mut W, alloc: Global, text: &[u8], file: &[u8]) -> io::Result<()> {
    let string: Vec<u8> = elements(alloc, text, WIDTH)?;
    out.write_all(text)?;
    write!(out, " ")?;
    print_walked(out, walk::walk(file, &string))
}

fn print_note<W: Write>(out: &mut W, text: &[u8]) -> io::Result<()> {
    write!(out, "# ")?;
    out.write_all(text)?;
    writeln!(out)
}

// Carries out one line, whose kind is its first byte. A matrix file takes the place of the one before; after an error that one stays.
fn carry_out<W: Write>(
    out: &mut W,
    alloc: Global,
    line: &[u8],
    file: &mut Vec<u8>,
) -> io::Result<()>
    ensures room { length file.old.items ≤ 3080 → length file.new.items ≤ 3080 }
    ensures before { OnErr result (file.new.items ≡ file.old.items) }
{
    let text = line.get(2..).unwrap_or(&[]);
    match line.first() {
        Some(b'#') => print_note(out, text),
        Some(b'm') => {
            *file = elements(alloc, text, 3080)?;
            Ok(())
        }
        Some(b's') => string_line(out, alloc, text, file),
        Some(b'u') => {
            let strings: Vec<u8> = elements(alloc, text, 1536)?;
            print_spent(out, spent::spent(file, &strings))
        }
        Some(b't') => print_total(out, file),
        Some(b'h') => writeln!(out, "{}", highest(file, number(text) as usize)),
        _ => Ok(()),
    }
}

// The matrix file that lines are about.
#[derive(Drop)]
struct Walks {
    alloc: Global,
    file: Vec<u8>,
    ghost room: { length file.items ≤ 3080 },
}

impl Lines for Walks {
    fn run(&mut self, out: &mut Out<'_>, line: &[u8]) -> io::Result<()> {
        carry_out(out, self.alloc, line, &mut self.file)
    }
}

fn main(rt: HostRuntime) -> io::Result<()> {
    let alloc = rt.alloc();
    let file: Vec<u8> = Vec::new(alloc);
    let mut walks = Walks { alloc, file };
    run_lines(&rt, &mut walks)
}

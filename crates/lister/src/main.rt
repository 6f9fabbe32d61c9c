// Reads a matrix file on standard input and lists the program that it compiles to (01, "Checked by hand"): single spaces, a newline after
// every line. A failed read or write ends it with that error.
#![tactic(auto)]

ghost use Rattle.std.specs.Prelude.{◌≡◌, ◌+◌, ◌++◌, take, IfSome, OnOk, IfOk, vec_len};
ghost use Rattle.std.specs.Io.{StartsWith};

use compiler::compile;
use fields::Refusal;
use programs::{Program, decode, read_header};
use std::alloc::Allocator;
use std::io;
use std::io::{BufWriter, Read, Write};

// Why a listing ends early: the engine's no, or a read or a write that failed.
#[derive(Drop)]
enum Ended {
    Refused(Refusal),
    Failed(io::Error),
}

impl From<Refusal> for Ended {
    fn from(why: Refusal) -> Ended {
        Ended::Refused(why)
    }
}

impl From<io::Error> for Ended {
    fn from(e: io::Error) -> Ended {
        Ended::Failed(e)
    }
}

// Takes at most 65,537 bytes of the input. That is more than any length field can say, 65,535, so a file cut there is refused as the
// whole file is (`front_decides` of specs/Listing.antt): 1 is passed by both, 2 and 3 look at the first 8 bytes alone, and where these
// pass, both are 4, since bytes are left over beyond the length field.
fn read_front<R: Read + Drop, A: Allocator>(input: R, file: &mut Vec<u8, A>) -> io::Result<usize>
    ensures bytes { OnOk result (IfSome (R.remaining input) (λ bytes. file.new.items ≡ file.old.items ++ take 65537 bytes)) }
    ensures count { IfOk result (λ n. vec_len file.new ≡ vec_len file.old + n) }
    ensures before { StartsWith file.new.items file.old.items }
{
    input.take(65537).read_to_end(file)
}

// The lines of a program: registers, inputs, outputs, rows and count, then each instruction after its position. None is refused: what
// compile writes is an accepted program.
fn list<W: Write>(out: &mut W, program: &[u8]) -> Result<(), Ended> {
    let Program {
        registers,
        inputs,
        outputs,
        rows,
        count,
    } = read_header(program)?;
    writeln!(out, "{registers} {inputs} {outputs} {rows} {count}")?;
    let mut at = Program::HEADER;
    for position in 0..count {
        let i = decode(program, at)?;
        writeln!(out, "{position} {i}")?;
        at += i.length();
    }
    Ok(())
}

// A program above 65,536 bytes is refusal 13, by the length of its buffer.
fn list_file<R: Read + Drop, W: Write, A: Allocator>(
    input: R,
    alloc: A,
    out: &mut W,
) -> Result<(), Ended> {
    let mut file = Vec::new(alloc);
    read_front(input, &mut file)?;
    // lent to `compile`, which refuses 13 by its length
    let mut program = [0u8; 65536];
    let length = compile(&file, &mut program)?;
    list(out, &program[..length])
}

fn main(rt: HostRuntime) -> io::Result<()> {
    let mut out = BufWriter::new(rt.alloc(), io::writer(&rt))?;
    match list_file(rt.reader(), rt.alloc(), &mut out) {
        Ok(()) => {}
        Err(Ended::Refused(why)) => writeln!(out, "refused {}", u32::from(why))?,
        Err(Ended::Failed(e)) => return Err(e),
    }
    out.flush()
}

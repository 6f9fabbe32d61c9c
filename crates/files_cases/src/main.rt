// 01, "Checked by hand": 128 rows are accepted, 129 are refusal 3; as a file that is read, as entries that are written, and as weights for
// either use. A failed write ends the program with that error.
#![tactic(auto)]

ghost use Rattle.std.specs.Prelude.{◌≤◌};

use fields::Refusal;
use files::Sizes;
use std::io;
use std::io::{BufWriter, Write};
use weights::Usage;

// One line. Programs that print a refusal so share no crate but fields, which has no words for it.
fn print_refusal<W: Write>(out: &mut W, why: Refusal) -> io::Result<()> {
    writeln!(out, "refused {}", u32::from(why))
}

fn print_sizes<W: Write>(out: &mut W, answer: Result<Sizes, Refusal>) -> io::Result<()> {
    match answer {
        Err(why) => print_refusal(out, why),
        Ok(sizes) => writeln!(out, "{} rows, {} columns", sizes.rows, sizes.columns),
    }
}

fn print_written<W: Write>(out: &mut W, answer: Result<usize, Refusal>) -> io::Result<()> {
    match answer {
        Err(why) => print_refusal(out, why),
        Ok(length) => writeln!(out, "{length} bytes"),
    }
}

// A file of so many rows of one column, all 0.
fn read_case<W: Write>(out: &mut W, rows: u8) -> io::Result<()>
    requires { rows ≤ 129 }
{
    // room for 129 rows, of which a file of fewer is the front
    let mut file = [0u8; 137];
    file[0] = 8 + rows;
    file[2] = 32;
    file[4] = rows;
    file[6] = 1;
    print_sizes(
        out,
        files::read(&file[..8 + usize::from(rows)], &mut [0; 129]),
    )
}

fn write_case<W: Write>(out: &mut W, rows: usize) -> io::Result<()> {
    let sizes = Sizes { rows, columns: 1 };
    print_written(out, files::write(sizes, &[0; 129], &mut [0; 136]))
}

fn build_cases<W: Write>(out: &mut W, usage: Usage) -> io::Result<()> {
    let weights = [1u32; 129];
    let mut file = [0u8; 136];
    print_written(out, weights::build(&weights[..128], 8, usage, &mut file))?;
    print_sizes(out, files::check(&file))?;
    print_written(out, weights::build(&weights, 8, usage, &mut file))
}

fn main(rt: HostRuntime) -> io::Result<()> {
    let mut out = BufWriter::new(rt.alloc(), io::writer(&rt))?;
    read_case(&mut out, 128)?;
    read_case(&mut out, 129)?;
    write_case(&mut out, 128)?;
    write_case(&mut out, 129)?;
    build_cases(&mut out, Usage::Plain)?;
    build_cases(&mut out, Usage::Signed)?;
    out.flush()
}

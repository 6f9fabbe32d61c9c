// Compiling a matrix file (01, "Translation" and "The engine's no").
ghost use Rattle.std.specs.Prelude.{◌≡◌, ◌≤◌, length};
ghost use Rattle.laws.specs.Lay.{lay};
ghost use Rattle.laws.specs.Outcome.{laid, mapped};
ghost use Rattle.fields.specs.Fields.{width};
ghost use Rattle.fields.specs.Refusal.{answered};
ghost use Rattle.programs.specs.Reading.{Within};
ghost use Rattle.compiler.specs.Translation.{compiled, compile_of};
ghost use Rattle.compiler.specs.EmittingProgram.{described, Measured, Packed, packed_matrix};

use crate::columns::columns;
use crate::parts::{begin, end};
use crate::registers::Layout;
use crate::sizes::{Measures, measure};
use fields::Refusal;
use files::check;
use programs::{Program, write_header};

// The header of a program whose columns are `count` instructions.
fn describe(layout: Layout, n: usize, count: usize) -> Program
    requires { Within (described layout.k layout.m n count) }
    ensures { result ≡ described layout.k layout.m n count }
{
    Program {
        registers: 3 + layout.k + 3 * layout.m,
        inputs: n,
        outputs: 1 + layout.k,
        rows: layout.m,
        count: (3 + 2 * layout.k + count) as u32,
    }
}

// Writes the program of packed rows of n bits, as it was measured, at the front of `program`.
fn write(size: Measures, n: usize, program: &mut [u8])
    requires { let rows = size.rows in let m = rows.layout.m in
        Packed rows.bytes.now m n × Measured rows.bytes.now m n rows.layout.k size.count size.length ×
        (size.length ≤ length program.old) × (rows.stride ≡ width n) }
    ensures { let rows = size.entry.rows in
        program.new ≡ lay (compiled (packed_matrix rows.bytes.now rows.layout.m n)) program.old }
{
    let layout = size.rows.layout;
    let _ = write_header(describe(layout, n, size.count), program);
    let mut at = begin(layout, program, Program::HEADER);
    at = columns(size.rows, n, program, at);
    end(layout, program, at);
}

// Writes the program of a matrix file at the front of `program`, and answers its length; or refusal 1 to 6 for the file, then 13 for
// `program`.
pub fn compile(file: &[u8], program: &mut [u8]) -> Result<usize, Refusal>
    ensures { let o = compile_of file.now (length program.old) in
        (answered result ≡ mapped length o) × (program.new ≡ lay (laid (λ bytes. bytes) o) program.old) }
{
    let m = check(file)?;
    let size = measure(&file[8..], m.rows, m.columns);
    if program.len() < size.length {
        return Err(Refusal::Buffer);
    }
    write(size, m.columns, program);
    Ok(size.length)
}

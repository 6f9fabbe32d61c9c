// The cases of draws.
use crate::samples::{SAMPLES, print_samples};
use case_lines::BYTES;
use case_lines::answers::{print_answer, refuse};
use case_lines::cases::Case;
use case_lines::lent::Lent;
use drawing::{draw, draw_signed};
use lanes::LANES;
use std::alloc::Global;
use std::io;
use std::io::Write;

// PROGRAM STRINGS samples-lent
pub(crate) fn draw_case<W: Write>(out: &mut W, case: Case) -> io::Result<()> {
    let program: Vec<u8> = case.list(1, BYTES)?;
    let strings: Vec<u8> = case.list(2, BYTES)?;
    let mut samples: Lent<u8> = case.lent(3, SAMPLES)?;
    let answer = draw(&program, &strings, samples.lend());
    print_samples(out, answer, &samples)
}

// Beside the plain case, as with samples: one for both would take the operation as a closure, and each is five lines.
//
// PROGRAM STRINGS sign samples-lent
pub(crate) fn draw_signed_case<W: Write>(out: &mut W, case: Case) -> io::Result<()> {
    let program: Vec<u8> = case.list(1, BYTES)?;
    let strings: Vec<u8> = case.list(2, BYTES)?;
    let mut samples: Lent<i16> = case.lent(4, SAMPLES)?;
    let answer = draw_signed(&program, &strings, case.number(3), samples.lend());
    print_samples(out, answer, &samples)
}

// Draws samples and signed samples of 64 strings.
fn draws<W: Write>(
    out: &mut W,
    alloc: Global,
    program: &[u8],
    strings: &[u8],
    sign: u64,
) -> io::Result<()> {
    let mut samples: Lent<u8> = Lent::filled(alloc, SAMPLES, SAMPLES)?;
    let mut signed: Lent<i16> = Lent::filled(alloc, SAMPLES, SAMPLES)?;
    let answer = draw(program, strings, samples.lend()).and_then(|()| draw_signed(
        program,
        strings,
        sign,
        signed.lend(),
    ));
    print_answer(out, answer.map(|()| []))?;
    if answer.is_ok() {
        samples.print(out, Some(LANES))?;
        signed.print(out, Some(LANES))?;
    }
    Ok(())
}

// FILE STRINGS sign
pub(crate) fn draws_case<W: Write>(out: &mut W, case: Case, program: &mut [u8]) -> io::Result<()> {
    let file: Vec<u8> = case.list(1, BYTES)?;
    let strings: Vec<u8> = case.list(2, BYTES)?;
    match compiler::compile(&file, program) {
        Err(why) => refuse(out, why),
        Ok(n) => {
            let made = &program[..program.len().min(n)];
            draws(out, case.alloc(), made, &strings, case.number(3))
        }
    }
}

// The fields of an answer: each is written with a space before it, but for the first, 0 or the number of a refusal. A failed write is
// passed on.
use crate::elements::Element;
use crate::hashes::{EMPTY, with_all};
use crate::lent::Lent;
use fields::Refusal;
use std::io;
use std::io::Write;

pub fn refuse<W: Write>(out: &mut W, why: Refusal) -> io::Result<()> {
    write!(out, "{:x}", u32::from(why))
}

// What an operation answers: its numbers, or a refusal.
pub fn print_answer<W: Write, const N: usize>(
    out: &mut W,
    answer: Result<[usize; N], Refusal>,
) -> io::Result<()> {
    match answer {
        Err(why) => refuse(out, why),
        Ok(numbers) => {
            write!(out, "0")?;
            for n in numbers {
                write!(out, " {n:x}")?;
            }
            Ok(())
        }
    }
}

pub fn print_hash<W: Write>(out: &mut W, hash: u64) -> io::Result<()> {
    write!(out, " #{hash:016x}")
}

fn print_digits<T: Element, W: Write>(out: &mut W, xs: &[T]) -> io::Result<()> {
    let digits = 2 * T::BYTES;
    write!(out, " ")?;
    for x in xs {
        write!(out, "{:0digits$x}", x.bits())?;
    }
    Ok(())
}

// A list in full, or by its hash where it takes more than 256 bytes.
pub fn print_list<T: Element, W: Write>(out: &mut W, xs: &[T]) -> io::Result<()> {
    if xs.is_empty() {
        write!(out, " -")
    } else if xs.len() <= 256 / T::BYTES {
        print_digits(out, xs)
    } else {
        print_hash(out, with_all(EMPTY, xs))
    }
}

// The answer of an operation that writes a file.
pub fn print_written<W: Write>(
    out: &mut W,
    answer: Result<usize, Refusal>,
    file: &Lent<u8>,
) -> io::Result<()> {
    print_answer(out, answer.map(|n| [n]))?;
    file.print(out, answer.ok())
}

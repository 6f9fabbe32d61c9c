// The cases of slicing, of samples, and of four lists combined.
use case_lines::BYTES;
use case_lines::answers::print_answer;
use case_lines::cases::Case;
use case_lines::elements::Element;
use case_lines::lent::Lent;
use fields::Refusal;
use lanes::LANES;
use std::io;
use std::io::Write;

// Room for samples that are lent.
pub(crate) const SAMPLES: usize = 96;

// Room for words that are lent.
const WORDS: usize = 224;

// columns STRINGS words-lent
pub(crate) fn slice_case<W: Write>(out: &mut W, case: Case) -> io::Result<()> {
    let strings: Vec<u8> = case.list(2, BYTES)?;
    let mut words: Lent<u64> = case.lent(3, WORDS)?;
    let answer = lanes::slice(case.size(1), &strings, words.lend());
    print_answer(out, answer.map(|_| []))?;
    words.print(out, answer.ok())
}

// Samples of all lanes, or a refusal.
pub(crate) fn print_samples<T: Element, W: Write>(
    out: &mut W,
    answer: Result<(), Refusal>,
    samples: &Lent<T>,
) -> io::Result<()> {
    print_answer(out, answer.map(|()| []))?;
    samples.print(out, answer.ok().map(|()| LANES))
}

// The cases of signed samples and draws stay beside those of plain ones: the operation and its sign would have to be a closure in one
// function for both, and each is five lines.
//
// rows OUTPUTS samples-lent
pub(crate) fn samples_case<W: Write>(out: &mut W, case: Case) -> io::Result<()> {
    let outputs: Vec<u64> = case.list(2, 16)?;
    let mut samples: Lent<u8> = case.lent(3, SAMPLES)?;
    let answer = lanes::samples(case.size(1), &outputs, samples.lend());
    print_samples(out, answer, &samples)
}

// rows OUTPUTS sign samples-lent
pub(crate) fn signed_samples_case<W: Write>(out: &mut W, case: Case) -> io::Result<()> {
    let outputs: Vec<u64> = case.list(2, 16)?;
    let mut samples: Lent<i16> = case.lent(4, SAMPLES)?;
    let answer = lanes::signed_samples(case.size(1), &outputs, case.number(3), samples.lend());
    print_samples(out, answer, &samples)
}

// X1 X2 X3 X4 first second results-lent
pub(crate) fn combine_case<W: Write>(out: &mut W, case: Case) -> io::Result<()> {
    let x1: Vec<i16> = case.list(1, SAMPLES)?;
    let x2: Vec<i16> = case.list(2, SAMPLES)?;
    let x3: Vec<i16> = case.list(3, SAMPLES)?;
    let x4: Vec<i16> = case.list(4, SAMPLES)?;
    let first = case.short(5);
    let second = case.short(6);
    let mut results: Lent<i32> = case.lent(7, SAMPLES)?;
    let answer = combining::combine(&x1, &x2, &x3, &x4, first, second, results.lend());
    print_samples(out, answer, &results)
}

// The cases of a pool (02, order 9).
use case_lines::answers::{print_answer, print_list};
use case_lines::cases::Case;
use case_lines::elements::Element;
use case_lines::lent::{Lent, see};
use fields::Refusal;
use pool::Signer;
use std::alloc::{AllocError, Global};
use std::io;
use std::io::Write;

// The most records of a line.
const MOST: usize = 20;

// Room for them, and for some behind them.
const ROOM: usize = 23;

// The signers of field 2, which are lent, and filled records behind them.
fn signers(case: Case) -> Result<Lent<Signer>, AllocError> {
    let numbers: Vec<u32> = case.list(2, 3 * MOST)?;
    let list: Vec<Signer> = numbers
        .chunks_exact(3)
        .map(|x| Signer {
            reserve: x[0],
            cap: x[1],
            drawn: x[2],
        })
        .collect(case.alloc())?;
    let filled = Signer {
        reserve: u32::FILL,
        cap: u32::FILL,
        drawn: u32::FILL,
    };
    Lent::of(case.alloc(), &list, filled, ROOM)
}

// Prints the answer of a call, and the signers that were lent, unless it is refused. All others must be as they were.
fn print_call<W: Write, const N: usize>(
    out: &mut W,
    alloc: Global,
    answer: Result<[usize; N], Refusal>,
    signers: &Lent<Signer>,
) -> io::Result<()> {
    let n = if answer.is_ok() { signers.lent() } else { 0 };
    print_answer(out, answer)?;
    let (laid, rest, before) = signers.parts(n);
    if !laid.is_empty() {
        let numbers: Vec<u32> = laid
            .iter()
            .flat_map(|s| [s.reserve, s.cap, s.drawn])
            .collect(alloc)?;
        print_list(out, &numbers)?;
    }
    see(out, rest, before)
}

// The cases differ in the call, and are three lines each: a closure for it would be as long. What they share is `signers`, `print_call`.
//
// words SIGNERS
pub(crate) fn open_case<W: Write>(out: &mut W, case: Case) -> io::Result<()> {
    let mut signers = signers(case)?;
    let answer = pool::open(case.size(1), signers.lend());
    print_call(out, case.alloc(), answer.map(|()| []), &signers)
}

// words SIGNERS
pub(crate) fn refill_case<W: Write>(out: &mut W, case: Case) -> io::Result<()> {
    let mut signers = signers(case)?;
    let answer = pool::refill(case.size(1), signers.lend());
    print_call(out, case.alloc(), answer.map(|()| []), &signers)
}

// words SIGNERS signer q
pub(crate) fn draw_case<W: Write>(out: &mut W, case: Case) -> io::Result<()> {
    let mut signers = signers(case)?;
    let answer = pool::draw(case.size(1), signers.lend(), case.size(3), case.size(4));
    print_call(out, case.alloc(), answer.map(|start| [start]), &signers)
}

// Memory that a case lends to an operation.
ghost use Rattle.std.specs.Prelude.{◌≡◌, length};

use crate::answers::print_list;
use crate::elements::Element;
use std::alloc::{AllocError, Global};
use std::io;
use std::io::Write;

// Sees that memory is what it was. Where it was touched the answer says so; no answer of the reference does.
pub fn see<T: PartialEq, W: Write>(out: &mut W, is: &[T], was: &[T]) -> io::Result<()> {
    if is == was {
        Ok(())
    } else {
        write!(out, " touched")
    }
}

// The front is lent. All of the memory before shows what else an operation changed.
#[derive(Drop)]
pub struct Lent<T> {
    memory: Vec<T>,
    before: Vec<T>,
    lent: usize,
    ghost as_long: { length memory.items ≡ length before.items },
}

impl<T: Copy> Lent<T> {
    // What stands at the front is lent; behind it there is `fill`, until all is `room`.
    pub fn of(alloc: Global, front: &[T], fill: T, room: usize) -> Result<Lent<T>, AllocError> {
        let mut memory = Vec::with_capacity(alloc, room)?;
        memory.extend_from_slice(front)?;
        memory.resize(room, fill)?;
        Ok(Lent {
            before: memory.clone()?,
            memory,
            lent: front.len(),
        })
    }

    // How much is lent, where there is room for it.
    pub fn lent(&self) -> usize {
        self.lent
    }

    pub fn lend(&mut self) -> &mut [T] {
        let lent = self.memory.len().min(self.lent);
        &mut self.memory[..lent]
    }

    // A result that was laid down at the front; then what stands behind it, and what stood there before.
    pub fn parts(&self, laid: usize) -> (&[T], &[T], &[T]) {
        let n = self.memory.len().min(laid);
        (&self.memory[..n], &self.memory[n..], &self.before[n..])
    }
}

impl<T: Element> Lent<T> {
    // Filled memory, of which the first `lent` are lent, or all.
    pub fn filled(alloc: Global, lent: usize, room: usize) -> Result<Lent<T>, AllocError> {
        Ok(Lent {
            memory: vec![in alloc; T::FILL; room]?,
            before: vec![in alloc; T::FILL; room]?,
            lent,
        })
    }

    // Prints the result that was laid down, if any. All else must be as it was.
    pub fn print<W: Write>(&self, out: &mut W, laid: Option<usize>) -> io::Result<()> {
        let (result, rest, before) = self.parts(laid.unwrap_or(0));
        if laid.is_some() {
            print_list(out, result)?;
        }
        see(out, rest, before)
    }
}

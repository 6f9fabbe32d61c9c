// A case: the fields of its line, numbers and lists in hexadecimal, one space between any two.
ghost use Rattle.std.specs.Prelude.{◌≡◌, ◌*◌, ◌/◌, ◌<◌, ◌≤◌, length, min, take, IfOk};

use crate::elements::Element;
use crate::lent::Lent;
use std::alloc::{AllocError, Global};

#[derive(Clone, Copy)]
pub struct Case<'a> {
    line: &'a [u8],
    alloc: Global,
}

// The value of a hexadecimal digit; anything else is 0, a capital too, so `char::to_digit` is not it.
fn nibble(x: u8) -> u8
    ensures { result < 16 }
{
    match x {
        b'0'..=b'9' => x - b'0',
        b'a'..=b'f' => x - b'a' + 10,
        _ => 0,
    }
}

// The number that the last 16 digits spell.
pub fn number(text: &[u8]) -> u64 {
    text.iter().fold(0, |n, x| (n << 4) | u64::from(nibble(*x)))
}

// Puts the elements that a text spells at the front of `xs`, as many as there is room for, and answers how many. (`-` spells none.)
pub fn take<T: Element>(text: &[u8], xs: &mut [T]) -> usize
    ensures { (result ≤ length xs.new) × (result ≡ length (take result xs.new)) }
{
    let n = xs.len().min(text.len() / (2 * T::BYTES));
    for (x, digits) in xs.iter_mut().zip(text.chunks_exact(2 * T::BYTES)) {
        *x = T::of_bits(number(digits));
    }
    n
}

// The elements that a text spells, but no more than `most`. (`-` spells none.)
pub fn elements<T: Element>(alloc: Global, text: &[u8], most: usize) -> Result<Vec<T>, AllocError>
    ensures { IfOk result (λ xs. length xs.items ≤ most) }
{
    let n = most.min(text.len() / (2 * T::BYTES));
    let mut xs = vec![in alloc; T::FILL; n]?;
    take(text, &mut xs);
    Ok(xs)
}

impl<'a> Case<'a> {
    pub fn new(alloc: Global, line: &'a [u8]) -> Case<'a> {
        Case { line, alloc }
    }

    // Where what the case lists is kept.
    pub fn alloc(self) -> Global {
        self.alloc
    }

    // Field k; it is empty where the line has none.
    fn field(self, k: usize) -> &'a [u8] {
        self.line.split(|x| *x == b' ').nth(k).unwrap_or(&[])
    }

    pub fn number(self, k: usize) -> u64 {
        number(self.field(k))
    }

    pub fn size(self, k: usize) -> usize {
        self.number(k) as usize
    }

    pub fn short(self, k: usize) -> u32 {
        u32::of_bits(self.number(k))
    }

    // The list that field k spells, but no more than `most` of it.
    pub fn list<T: Element>(self, k: usize, most: usize) -> Result<Vec<T>, AllocError>
        ensures { IfOk result (λ xs. length xs.items ≤ most) }
    {
        elements(self.alloc, self.field(k), most)
    }

    // Filled memory, of which as many elements are lent as field k says.
    pub fn lent<T: Element>(self, k: usize, room: usize) -> Result<Lent<T>, AllocError> {
        Lent::filled(self.alloc, self.size(k), room)
    }

    // Memory that begins with the list of field k, which is lent.
    pub fn lent_list<T: Element>(self, k: usize, room: usize) -> Result<Lent<T>, AllocError> {
        Lent::of(self.alloc, &self.list(k, room)?, T::FILL, room)
    }
}

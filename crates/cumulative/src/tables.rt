// The checks of a table, the same for import and for lookup (02, order 4). Numbers can be as large as 2^64 - 1: they are compared, and
// subtracted only where none falls.
ghost use Rattle.std.specs.Prelude.{◌≡◌, true, false, ◌^◌, length, IfErr, IfOk};
ghost use Rattle.fields.specs.Refusal.{answered};
ghost use Rattle.fields.specs.declared.refusals.Refusal.TheVariants.{Size};
ghost use Rattle.cumulative.specs.Tables.{falls, fills, numbers_of, rows_of, sizes_unfit, uncumulative};

use fields::{Refusal, outside};

// The most numbers of a table: one more than rows.
const NUMBERS: usize = 129;

// The largest n: 2^n and every number up to it have 64 bits.
pub(crate) const BITS: usize = 63;

// Whether there are fewer than 2 or more than 129 numbers, or n is outside 1 to 63.
fn sizes_unfit(numbers: usize, columns: usize) -> bool
    ensures { result ≡ sizes_unfit numbers columns }
{
    !(2..=NUMBERS).contains(&numbers) | outside(BITS, columns)
}

// The numbers of a table, and the n that they go with: as many, and as large an n, as fit.
#[derive(Clone, Copy)]
pub(crate) struct Table<'a> {
    pub numbers: &'a [u64],
    pub columns: usize,
    ghost sized: { sizes_unfit (length numbers.now) columns ≡ false },
}

impl<'a> Table<'a> {
    // The table of these numbers, or refusal 3 for how many they are, or for the columns.
    pub(crate) fn sized(numbers: &'a [u64], columns: usize) -> Result<Self, Refusal>
        ensures ok { IfOk result (λ t. (t.numbers.now ≡ numbers.now) × (t.columns ≡ columns)) }
        ensures err { IfErr result (λ why. (why ≡ Size) × (sizes_unfit (length numbers.now) columns ≡ true)) }
    {
        if sizes_unfit(numbers.len(), columns) {
            return Err(Refusal::Size);
        }
        Ok(Table { numbers, columns })
    }

    // 2^n.
    pub(crate) fn power(self) -> u64
        ensures { result ≡ 2 ^ self.entry.columns }
    {
        1u64 << self.columns
    }

    // Whether a number is below the one before it.
    fn falls(self) -> bool
        ensures { result ≡ falls self.entry.numbers.now }
    {
        self.numbers.windows(2).any(|w| w[1] < w[0])
    }

    // Whether the first number is not 0, one falls, or the last is above 2^n.
    fn uncumulative(self) -> bool
        ensures { result ≡ uncumulative self.entry.numbers.now self.entry.columns }
    {
        (self.numbers[0] != 0) | self.falls() | (self.power() < *self.numbers.last().unwrap())
    }

    // Whether a difference of neighbours is 2^n.
    fn fills(self) -> bool
        requires { falls self.numbers.now ≡ false }
        ensures { result ≡ fills self.entry.numbers.now self.entry.columns }
    {
        let full = self.power();
        self.numbers
            .windows(2)
            .any(|w| w[1].wrapping_sub(w[0]) == full)
    }

    // Tries the numbers: refusal 15, then 16.
    pub(crate) fn check(self) -> Result<(), Refusal>
        ensures { answered result ≡ numbers_of self.entry.numbers.now self.entry.columns }
    {
        if self.uncumulative() {
            return Err(Refusal::Table);
        }
        if self.fills() {
            return Err(Refusal::Step);
        }
        Ok(())
    }

    // How many rows it stands for: it has one number more.
    pub(crate) fn rows(self) -> usize
        ensures { result ≡ rows_of self.entry.numbers.now }
    {
        self.numbers.len() - 1
    }
}

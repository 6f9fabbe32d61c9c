// Lookup: the sample of a number from 1 to 2^n (02, order 4).
//
// The number is random, and tells the sample. So it is compared with every number of the table, and none of these comparisons decides what
// is done next or where it is read; all that is decided is whether r is in its range, and at the end whether it misses.
ghost use Rattle.std.specs.Prelude.{◌≡◌, ◌≤◌, ltb};
ghost use Rattle.laws.specs.Outcome.{mapped};
ghost use Rattle.fields.specs.Refusal.{answered};
ghost use Rattle.walk.specs.Strings.{one_if};
ghost use Rattle.walk.specs.Walk.{row_answer};
ghost use Rattle.cumulative.specs.Tables.{lookup_of};
ghost use Rattle.cumulative.specs.Lookup.{below};

use crate::tables::Table;
use fields::Refusal;

// 1 where a number is below r, and otherwise 0.
fn one_below(x: u64, r: u64) -> usize
    ensures { (result ≡ one_if (ltb x r)) × (result ≤ 1) }
{
    (x < r) as usize
}

impl Table<'_> {
    // How many of the numbers after the first are below r.
    fn below(self, r: u64) -> usize
        ensures { result ≡ below self.entry.numbers.now r }
    {
        self.numbers[1..].iter().map(|x| one_below(*x, r)).sum()
    }
}

// Looks r up in a cumulative table with `columns` columns: the s with T[s] < r and r ≤ T[s+1], or a miss above the last number; or refusal
// 3 for the number of numbers, of columns, or r outside 1 to 2^n, then 15, then 16.
pub fn lookup(table: &[u64], columns: usize, r: u64) -> Result<Option<usize>, Refusal>
    ensures { mapped row_answer (answered result) ≡ lookup_of table.now columns r }
{
    let table = Table::sized(table, columns)?;
    // Both ends are tried, whatever the first tells: a range's `contains` would leave off there.
    if (r < 1) | (table.power() < r) {
        return Err(Refusal::Size);
    }
    table.check()?;
    let s = table.below(r);
    Ok((s < table.rows()).then_some(s))
}

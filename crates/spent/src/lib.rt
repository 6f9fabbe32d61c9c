// What 64 walks of a matrix file use together (02, order 1).
//
// It takes any file and any strings, of any length, and answers the total or one refusal. Its contract cites `spent_of` of
// specs/Spent.antt; what holds of the total is in specs/Theorems.antt. The file is checked once, and then walked on each string.
#![tactic(auto)]

ghost use Rattle.std.specs.Prelude.{◌≡◌};
ghost use Rattle.laws.specs.Sums.{sum_to};
ghost use Rattle.fields.specs.Refusal.{answered};
ghost use Rattle.lanes.specs.Slicing.{lanes};
ghost use Rattle.spent.specs.Spent.{spent_of};
ghost use Rattle.spent.specs.Ways.{used_by};

use fields::{Refusal, check_strings, field, width};
use files::check;
use lanes::LANES;
use walk::used;

// The columns that the walks of a file on 64 strings, one after another, have used together.
fn sum_used(file: &[u8], strings: &[u8]) -> usize
    ensures { result ≡ sum_to lanes (used_by file.now strings.now) }
{
    let w = width(field(file, 6));
    (0..LANES).map(|j| used(file, strings, j * w)).sum()
}

// Walks a matrix file on 64 strings, one after another as slicing takes them, and adds up the columns used; or refusal 1 to 6 for the
// file, then 13 and 5 for the strings.
pub fn spent(file: &[u8], strings: &[u8]) -> Result<usize, Refusal>
    ensures { answered result ≡ spent_of file.now strings.now }
{
    let size = check(file)?;
    check_strings(LANES, size.columns, strings)?;
    Ok(sum_used(file, strings))
}

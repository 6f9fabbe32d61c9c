// The walk of a matrix file on one packed string of bits (01, "Matrix and walk").
//
// It takes any file and any string, of any length, and answers a row or a miss with the columns used (02, order 1), or one refusal. Its
// contract cites `walk_of` of specs/Walk.antt; what holds of what it answers, and of all strings together, is in specs/Theorems.antt.
#![tactic(auto)]

ghost use Rattle.std.specs.Prelude.{◌≡◌};
ghost use Rattle.laws.specs.Outcome.{mapped};
ghost use Rattle.fields.specs.Refusal.{answered};
ghost use Rattle.walk.specs.Walk.{draw_at, drawn_of, used_at, walked, walk_of};

use fields::{Refusal, bit, check_strings, field, width};
use files::check;

// What a walk answers: the row that it hits, or none for a miss, and the columns that it has used.
#[derive(Clone, Copy)]
pub struct Walked {
    pub row: Option<usize>,
    pub used: usize,
}

// The row that a walk hits, and the column in which it does.
#[derive(Clone, Copy)]
struct Hit {
    row: usize,
    column: usize,
}

// Walks the rows behind the header of a file, as many and as long as its fields say, on the packed string that begins at byte `at` of
// `strings`. Whether the file is sound is not tried here. A d of m or more that is left after a column can never hit later, so the walk
// ends there, and d never wraps.
fn draw(file: &[u8], strings: &[u8], at: usize) -> Option<Hit>
    ensures { drawn_of result ≡ draw_at file.now strings.now at }
{
    let m = field(file, 4);
    let n = field(file, 6);
    let w = width(n);
    let mut d: usize = 0;
    let mut hit = None;
    'walk: for c in 0..n {
        d = 2 * d + bit(strings, at, c) as usize;
        for v in (0..m).rev() {
            if bit(file, 8 + v * w, c) == 1 {
                if d == 0 {
                    hit = Some(Hit { row: v, column: c });
                    break 'walk;
                }
                d -= 1;
            }
        }
        if d >= m {
            break 'walk;
        }
    }
    hit
}

// The columns that the walk on the packed string that begins at byte `at` of `strings` uses, of a file that is not checked here, so that
// one check serves many walks (02, order 1). A miss has used them all, also where `draw` left off before the last.
pub fn used(file: &[u8], strings: &[u8], at: usize) -> usize
    ensures { result ≡ used_at file.now strings.now at }
{
    let n = field(file, 6);
    match draw(file, strings, at) {
        Some(hit) => hit.column + 1,
        None => n,
    }
}

// Walks a matrix file on a packed string: the row that is hit, or a miss, and the columns used; or refusal 1 to 6 for the file, then 13
// and 5 for the string.
pub fn walk(file: &[u8], string: &[u8]) -> Result<Walked, Refusal>
    ensures { mapped walked (answered result) ≡ walk_of file.now string.now }
{
    let size = check(file)?;
    check_strings(1, size.columns, string)?;
    match draw(file, string, 0) {
        Some(hit) => Ok(Walked {
            row: Some(hit.row),
            used: hit.column + 1,
        }),
        None => Ok(Walked {
            row: None,
            used: size.columns,
        }),
    }
}

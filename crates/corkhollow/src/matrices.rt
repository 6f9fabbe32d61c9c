// For C: matrix files read, written, built and walked, and strings for their rows (include/corkhollow.h). Each function returns 0 or the
// refusal's number, and has the contract of the operation that it wraps.
ghost use Rattle.std.specs.Prelude.{◌≡◌};
ghost use Rattle.std.proofs.Math.ListN;
ghost use Rattle.laws.specs.Lay.{lay};
ghost use Rattle.laws.specs.Outcome.{laid};
ghost use Rattle.files.specs.Files.{read_of, write_of};
ghost use Rattle.weights.specs.Weights.{build_of};
ghost use Rattle.walk.specs.Walk.{walk_of};
ghost use Rattle.lanes.specs.Samples.{code};
ghost use Rattle.spent.specs.Spent.{spent_of};
ghost use Rattle.wanted.specs.Wanted.{string_bytes, string_found, wanted_of};
ghost use Rattle.corkhollow.specs.Calls.{returned, told, usage_of};

use crate::telling::tell;
use files::Sizes;
use lanes::MISS;
use walk::Walked;
use weights::Usage;

// Reads a matrix file: its entries into `entries`, and its sizes.
#[unsafe(no_mangle)]
pub extern "C" fn corkhollow_read(
    file: &[u8],
    entries: &mut [u8],
    rows: &mut usize,
    columns: &mut usize,
) -> u32
    ensures { let o = read_of file.now (ListN.length entries.old) in
        (result ≡ returned o) ×
        (entries.new ≡ lay (laid (λ M. M.entries) o) entries.old) ×
        (rows.new ≡ told (λ M. M.rows) o rows.old) ×
        (columns.new ≡ told (λ M. M.columns) o columns.old) }
{
    match files::read(file, entries) {
        Ok(sizes) => {
            *rows = sizes.rows;
            *columns = sizes.columns;
            0
        }
        Err(why) => u32::from(why),
    }
}

// Writes a matrix file of entries into `file`, and its length.
#[unsafe(no_mangle)]
pub extern "C" fn corkhollow_write(
    rows: usize,
    columns: usize,
    entries: &[u8],
    file: &mut [u8],
    length: &mut usize,
) -> u32
    ensures { let o = write_of rows columns entries.now (ListN.length file.old) in
        (result ≡ returned o) ×
        (file.new ≡ lay (laid (λ bytes. bytes) o) file.old) ×
        (length.new ≡ told ListN.length o length.old) }
{
    let sizes = Sizes { rows, columns };
    tell(files::write(sizes, entries, file), length)
}

// The use that a flag stands for. It stays, since `Usage::from(true)` would not say which one that is.
fn usage_of(signed: bool) -> Usage
    ensures { result ≡ usage_of signed }
{
    if signed { Usage::Signed } else { Usage::Plain }
}

// Builds a matrix file from weights into `file`, and tells its length.
#[unsafe(no_mangle)]
pub extern "C" fn corkhollow_build(
    weights: &[u32],
    columns: usize,
    signed: bool,
    file: &mut [u8],
    length: &mut usize,
) -> u32
    ensures { let o = build_of (usage_of signed) weights.now columns (ListN.length file.old) in
        (result ≡ returned o) ×
        (file.new ≡ lay (laid (λ bytes. bytes) o) file.old) ×
        (length.new ≡ told ListN.length o length.old) }
{
    let built = weights::build(weights, columns, usage_of(signed), file);
    tell(built, length)
}

// Walks a matrix file on a packed string: the row that is hit, or 255 for a miss, and the columns used.
#[unsafe(no_mangle)]
pub extern "C" fn corkhollow_walk(
    file: &[u8],
    string: &[u8],
    row: &mut usize,
    used: &mut usize,
) -> u32
    ensures { let o = walk_of file.now string.now in
        (result ≡ returned o) ×
        (row.new ≡ told (λ w. code w.answer) o row.old) ×
        (used.new ≡ told (λ w. w.used) o used.old) }
{
    match walk::walk(file, string) {
        Ok(Walked { row: hit, used: n }) => match hit {
            Some(v) => {
                *row = v;
                *used = n;
                0
            }
            None => {
                let all = n; // a miss has used all columns
                *row = MISS as usize;
                *used = all;
                0
            }
        },
        Err(why) => u32::from(why),
    }
}

// Walks a matrix file on 64 packed strings, and tells the columns used together.
#[unsafe(no_mangle)]
pub extern "C" fn corkhollow_spent(file: &[u8], strings: &[u8], total: &mut usize) -> u32
    ensures { let o = spent_of file.now strings.now in
        (result ≡ returned o) ×
        (total.new ≡ told (λ n. n) o total.old) }
{
    tell(spent::spent(file, strings), total)
}

// Lays the smallest string on which the walk of a matrix file hits a row into `string`, and tells whether there is one.
#[unsafe(no_mangle)]
pub extern "C" fn corkhollow_string_for(
    file: &[u8],
    row: usize,
    string: &mut [u8],
    found: &mut bool,
) -> u32
    ensures { let o = wanted_of file.now row (ListN.length string.old) in
        (result ≡ returned o) ×
        (string.new ≡ lay (laid string_bytes o) string.old) ×
        (found.new ≡ told string_found o found.old) }
{
    tell(wanted::string_for(file, row, string), found)
}

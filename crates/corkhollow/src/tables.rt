// For C: cumulative tables imported, exported and looked up (include/corkhollow.h). Each function returns 0 or the refusal's number, and
// has the contract of the operation that it wraps.
ghost use Rattle.std.specs.Prelude.{◌≡◌};
ghost use Rattle.std.proofs.Math.ListN;
ghost use Rattle.laws.specs.Lay.{lay};
ghost use Rattle.laws.specs.Outcome.{laid};
ghost use Rattle.lanes.specs.Samples.{code};
ghost use Rattle.cumulative.specs.Tables.{export_of, import_of, lookup_of};
ghost use Rattle.corkhollow.specs.Calls.{returned, told};

use crate::telling::tell;
use lanes::MISS;

// Imports a cumulative table: writes the file of its matrix into `file`, and tells its length.
#[unsafe(no_mangle)]
pub extern "C" fn corkhollow_import(
    table: &[u64],
    columns: usize,
    file: &mut [u8],
    length: &mut usize,
) -> u32
    ensures { let o = import_of table.now columns (ListN.length file.old) in
        (result ≡ returned o) ×
        (file.new ≡ lay (laid (λ bytes. bytes) o) file.old) ×
        (length.new ≡ told ListN.length o length.old) }
{
    tell(cumulative::import(table, columns, file), length)
}

// Exports the table of a matrix file into `table`, and tells how many numbers it has, and n.
#[unsafe(no_mangle)]
pub extern "C" fn corkhollow_export(
    file: &[u8],
    table: &mut [u64],
    numbers: &mut usize,
    columns: &mut usize,
) -> u32
    ensures { let o = export_of file.now (ListN.length table.old) in
        (result ≡ returned o) ×
        (table.new ≡ lay (laid (λ t. t.numbers) o) table.old) ×
        (numbers.new ≡ told (λ t. ListN.length t.numbers) o numbers.old) ×
        (columns.new ≡ told (λ t. t.columns) o columns.old) }
{
    match cumulative::export(file, table) {
        Ok(extent) => {
            *numbers = extent.numbers;
            *columns = extent.columns;
            0
        }
        Err(why) => u32::from(why),
    }
}

// Looks a number up in a cumulative table: the sample, or 255 for a miss.
#[unsafe(no_mangle)]
pub extern "C" fn corkhollow_lookup(
    table: &[u64],
    columns: usize,
    r: u64,
    sample: &mut usize,
) -> u32
    ensures { let o = lookup_of table.now columns r in
        (result ≡ returned o) ×
        (sample.new ≡ told code o sample.old) }
{
    match cumulative::lookup(table, columns, r) {
        Ok(found) => {
            *sample = found.unwrap_or(MISS as usize);
            0
        }
        Err(why) => u32::from(why),
    }
}

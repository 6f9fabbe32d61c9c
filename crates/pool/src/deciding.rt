// Which records open a pool, and which an opening and draws can have left (02, order 9).
ghost use Rattle.std.specs.Prelude.{◌≡◌, length};
ghost use Rattle.laws.specs.Outcome.{mapped, refuse};
ghost use Rattle.fields.specs.Refusal.{answered};
ghost use Rattle.pool.specs.Pool.{open_of, records_of, sizes_unfit};
ghost use Rattle.pool.specs.Scan.{sums_of};

use crate::signers::{SIGNERS, Signer, Sums, scan};
use fields::{Refusal, outside};

// The most words of a pool.
const WORDS: usize = 65536;

// Whether there are more than 65,536 words, or not 1 to 16 signers.
fn sizes_unfit(words: usize, n: usize) -> bool
    ensures { result ≡ sizes_unfit words n }
{
    (WORDS < words) | outside(SIGNERS, n)
}

// The sums of as many signers as a pool has, or refusal 3 for its sizes.
fn sized(words: usize, signers: &[Signer]) -> Result<Sums, Refusal>
    ensures { answered result ≡ mapped (λ u. sums_of signers.now) (refuse 3 (sizes_unfit words (length signers.now))) }
{
    if sizes_unfit(words, signers.len()) {
        return Err(Refusal::Size);
    }
    Ok(scan(signers))
}

// Whether signers open a pool, or refusal 3. It and `stands` share `sized`, and test other sums.
pub(crate) fn opens(words: usize, signers: &[Signer]) -> Result<(), Refusal>
    ensures { answered result ≡ mapped (λ ys. tt) (open_of words signers.now) }
{
    let a = sized(words, signers)?;
    if a.above | (words < a.reserved) {
        return Err(Refusal::Size);
    }
    Ok(())
}

// The sums of signers that an opening and draws can have left, or refusal 3.
pub(crate) fn stands(words: usize, signers: &[Signer]) -> Result<Sums, Refusal>
    ensures { answered result ≡ mapped (λ u. sums_of signers.now) (records_of words signers.now) }
{
    let a = sized(words, signers)?;
    if a.above | a.over | (words < a.claimed) {
        return Err(Refusal::Size);
    }
    Ok(a)
}

// The three operations of a pool: each goes through the list of signers once, decides, and changes what was drawn (02, order 9).
ghost use Rattle.std.specs.Prelude.{◌≡◌};
ghost use Rattle.laws.specs.Lay.{lay};
ghost use Rattle.laws.specs.Outcome.{laid, mapped};
ghost use Rattle.fields.specs.Refusal.{answered};
ghost use Rattle.pool.specs.Pool.{draw_of, open_of, refill_of};

use crate::deciding::{opens, stands};
use crate::signers::{Signer, clear};
use fields::Refusal;

// Opens a pool of `words` words: nobody has drawn, whatever stood there before; or refusal 3 for the number of words or of signers, a
// reserve above its cap, or reserves that are together above `words`.
pub fn open(words: usize, signers: &mut [Signer]) -> Result<(), Refusal>
    ensures { let o = open_of words signers.old in
        (answered result ≡ mapped (λ ys. tt) o) × (signers.new ≡ lay (laid (λ ys. ys) o) signers.old) }
{
    opens(words, signers)?;
    clear(signers);
    Ok(())
}

// Draws q words for a signer: answers where they start, and adds them to what it has drawn; or refusal 3 for records that no opening and
// draws on so many words can leave, 17 for a signer's number that is not opened, 18 over its cap, 19 where fewer words would be left than
// the others lack of their reserves, or fewer are left than q.
pub fn draw(words: usize, signers: &mut [Signer], signer: usize, q: usize) -> Result<usize, Refusal>
    ensures { let o = draw_of words signers.old signer q in
        (answered result ≡ mapped (λ g. g.start) o) × (signers.new ≡ lay (laid (λ g. g.signers) o) signers.old) }
{
    let all = stands(words, signers)?;
    if signers.len() <= signer {
        return Err(Refusal::Signer);
    }
    let own = signers[signer];
    if own.above_cap(q) {
        return Err(Refusal::Cap);
    }
    // what the others lack of their reserves
    let lacking = all.claimed - all.drawn - own.lack();
    if words < all.drawn + q + lacking {
        return Err(Refusal::Reserve);
    }
    signers[signer].drawn = own.drawn + q as u32;
    Ok(all.drawn)
}

// Refills a pool: nobody has drawn; or refusal 3 as a draw has it. It is an opening but for what is tried: a function for both would take
// that as a closure, and be no shorter.
pub fn refill(words: usize, signers: &mut [Signer]) -> Result<(), Refusal>
    ensures { let o = refill_of words signers.old in
        (answered result ≡ mapped (λ ys. tt) o) × (signers.new ≡ lay (laid (λ ys. ys) o) signers.old) }
{
    stands(words, signers)?;
    clear(signers);
    Ok(())
}

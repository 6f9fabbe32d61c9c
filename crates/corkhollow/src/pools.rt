// For C: one entropy buffer and several signers (include/corkhollow.h). Each function returns 0 or the refusal's number, and has the
// contract of the operation that it wraps.
ghost use Rattle.std.specs.Prelude.{◌≡◌};
ghost use Rattle.laws.specs.Lay.{lay};
ghost use Rattle.laws.specs.Outcome.{laid};
ghost use Rattle.pool.specs.Pool.{draw_of, open_of, refill_of};
ghost use Rattle.corkhollow.specs.Calls.{returned, told};

use crate::telling::{number, tell};
use pool::Signer;

// Opens a pool: nobody has drawn.
#[unsafe(no_mangle)]
pub extern "C" fn corkhollow_pool_open(words: usize, signers: &mut [Signer]) -> u32
    ensures { let o = open_of words signers.old in
        (result ≡ returned o) × (signers.new ≡ lay (laid (λ ys. ys) o) signers.old) }
{
    number(pool::open(words, signers))
}

// Draws q words for a signer, and tells where they start.
#[unsafe(no_mangle)]
pub extern "C" fn corkhollow_pool_draw(
    words: usize,
    signers: &mut [Signer],
    signer: usize,
    q: usize,
    start: &mut usize,
) -> u32
    ensures { let o = draw_of words signers.old signer q in
        (result ≡ returned o) ×
        (signers.new ≡ lay (laid (λ g. g.signers) o) signers.old) ×
        (start.new ≡ told (λ g. g.start) o start.old) }
{
    tell(pool::draw(words, signers, signer, q), start)
}

// Refills a pool: nobody has drawn.
#[unsafe(no_mangle)]
pub extern "C" fn corkhollow_pool_refill(words: usize, signers: &mut [Signer]) -> u32
    ensures { let o = refill_of words signers.old in
        (result ≡ returned o) × (signers.new ≡ lay (laid (λ ys. ys) o) signers.old) }
{
    number(pool::refill(words, signers))
}

// The records of the signers: one pass that adds them up, and one that clears what they have drawn (02, order 9).
ghost use Rattle.std.specs.Prelude.{◌≡◌, ◌+◌, ◌^◌, ◌≤◌, ◌<◌, false, length, ltb};
ghost use Rattle.pool.specs.Pool.{cleared, lack, most_signers};
ghost use Rattle.pool.specs.Scan.{Small, added, sums_of};

// The most signers of a pool.
pub(crate) const SIGNERS: usize = 16;

// A signer, as C has it too: how many words are kept for it, how many it may draw, and how many it has drawn.
#[repr(C)]
#[derive(Clone, Copy, Debug, PartialEq, Eq)]
pub struct Signer {
    pub reserve: u32,
    pub cap: u32,
    pub drawn: u32,
}

impl Signer {
    // What it lacks of its reserve.
    pub(crate) fn lack(self) -> usize
        ensures { result ≡ lack self }
    {
        self.reserve.saturating_sub(self.drawn) as usize
    }

    // Whether q more words are above its cap, which is a number of 32 bits.
    pub(crate) fn above_cap(self, q: usize) -> bool
        ensures above { result ≡ ltb self.cap (self.drawn + q) }
        ensures small { result ≡ false → self.drawn + q < 2 ^ 32 }
    {
        (self.cap as usize) < q.saturating_add(self.drawn as usize)
    }
}

// What a pass over signers comes to: all reserves, all that was drawn, and of each the larger of the two, added up; whether some reserve is
// above its cap; and whether somebody has drawn more than its cap.
#[derive(Clone, Copy, Default)]
pub(crate) struct Sums {
    pub(crate) reserved: usize,
    pub(crate) drawn: usize,
    pub(crate) claimed: usize,
    pub(crate) above: bool,
    pub(crate) over: bool,
}

impl Sums {
    // The sums with one more signer.
    fn with(self, s: Signer) -> Sums
        requires { Small most_signers self }
        ensures { result ≡ added self s }
    {
        Sums {
            reserved: self.reserved + s.reserve as usize,
            drawn: self.drawn + s.drawn as usize,
            claimed: self.claimed + s.reserve.max(s.drawn) as usize,
            above: self.above | (s.cap < s.reserve),
            over: self.over | (s.cap < s.drawn),
        }
    }
}

// Goes through the list of a pool and adds the signers up.
pub(crate) fn scan(signers: &[Signer]) -> Sums
    requires { length signers.now ≤ most_signers }
    ensures { (result ≡ sums_of signers.now) × Small most_signers result }
{
    let mut sums = Sums::default();
    for s in signers {
        // no number is above 32 bits, so the sums stay `Small`
        prove!(s.reserve <= u32::MAX);
        prove!(s.drawn <= u32::MAX);
        sums = sums.with(*s);
    }
    sums
}

// Nobody has drawn.
pub(crate) fn clear(signers: &mut [Signer])
    ensures { signers.new ≡ cleared signers.old }
{
    for s in signers.iter_mut() {
        s.drawn = 0;
    }
}

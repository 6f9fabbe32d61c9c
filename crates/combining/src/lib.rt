// Wide bells from four narrow ones (02, order 2).
//
// `combine` takes any lists, of any length, and any multipliers, and lays 64 results at the front of a buffer or answers one refusal. Its
// contract cites `combine_of` of specs/Combining.antt. No choice is made by an entry: a miss is kept out of the sums by products with 0 or
// 1, and whether any is refused is decided once, when all entries of all lists were tried.
#![tactic(auto)]

ghost use Rattle.std.specs.Prelude.{◌≡◌, cond, not, ◌≤◌, pos, nat_abs, length};
ghost use Rattle.laws.specs.Lists.{upto};
ghost use Rattle.laws.specs.Lay.{lay};
ghost use Rattle.laws.specs.Outcome.{laid, mapped};
ghost use Rattle.fields.specs.Refusal.{answered};
ghost use Rattle.lanes.specs.Slicing.{lanes};
ghost use Rattle.combining.specs.Combination.{is_signed_miss, is_sample, most_multiplier, plus_times, result_at, result_of};
ghost use Rattle.combining.specs.Combination.{Samples, SmallValue, unsound, value_of};
ghost use Rattle.combining.specs.Combining.{any_unsound, combine_of, short, unfit};

use fields::{Refusal, outside};
use lanes::{LANES, SIGNED_MISS};

// What stands for a miss among results.
pub const COMBINED_MISS: i32 = 2147483647;

// The largest multiplier.
pub const MULTIPLIER: usize = 1000;

// The largest signed sample.
const LARGEST: i16 = 127;

// Whether an entry is a value.
fn hits(x: i16) -> bool
    ensures { result ≡ not (is_signed_miss x) }
{
    x != SIGNED_MISS
}

// A number, or 0 where it does not count: a product, so that no choice is made.
fn kept_if(counts: bool, x: i32) -> i32
    ensures { result ≡ cond counts x (pos 0) }
{
    (counts as i32) * x
}

// The value of an entry, 0 for a miss.
fn value(x: i16) -> i32
    ensures { result ≡ value_of x }
{
    kept_if(hits(x), x as i32)
}

// x + k × y.
fn plus_times(k: u32, x: i32, y: i32) -> i32
    requires { (k ≤ most_multiplier) × (nat_abs x ≤ 127127) × (nat_abs y ≤ 127127) }
    ensures { result ≡ plus_times k x y }
{
    x + (k as i32) * y
}

// x + first × y of two entries.
fn pair(first: u32, x: i16, y: i16) -> i32
    requires { (first ≤ most_multiplier) × SmallValue x × SmallValue y }
    ensures { result ≡ plus_times first (value_of x) (value_of y) }
{
    plus_times(first, value(x), value(y))
}

// A result, or the miss in its place: of the two parts one is 0.
fn or_missed(hit: bool, x: i32) -> i32
    ensures { result ≡ cond hit x (pos 2147483647) }
{
    kept_if(hit, x) + kept_if(!hit, COMBINED_MISS)
}

// The result of one lane.
fn result(first: u32, second: u32, x1: i16, x2: i16, x3: i16, x4: i16) -> i32
    requires { (first ≤ most_multiplier) × (second ≤ most_multiplier) × SmallValue x1 × SmallValue x2 × SmallValue x3 × SmallValue x4 }
    ensures { result ≡ result_of first second x1 x2 x3 x4 }
{
    let hit = hits(x1) & hits(x2) & hits(x3) & hits(x4);
    let sum = plus_times(second, pair(first, x1, x2), pair(first, x3, x4));
    or_missed(hit, sum)
}

// Whether an entry is a miss, or from -127 to 127.
fn sound(x: i16) -> bool
    ensures { result ≡ is_sample x }
{
    (x == SIGNED_MISS) | ((-LARGEST <= x) & (x <= LARGEST))
}

// Whether any of the first 64 entries is neither. All of them are tried.
fn unsound(x: &[i16]) -> bool
    requires { lanes ≤ length x.now }
    ensures { result ≡ unsound x.now }
{
    let mut any = false;
    for entry in &x[..LANES] {
        any |= !sound(*entry);
    }
    any
}

// Four lists and the multipliers with which they are combined.
#[derive(Clone, Copy)]
struct Four<'a> {
    x1: &'a [i16],
    x2: &'a [i16],
    x3: &'a [i16],
    x4: &'a [i16],
    first: u32,
    second: u32,
}

impl Four<'_> {
    // Whether a multiplier is outside 1 to 1,000.
    fn unfit(&self) -> bool
        ensures { result ≡ unfit self.now.first self.now.second }
    {
        outside(MULTIPLIER, self.first as usize) | outside(MULTIPLIER, self.second as usize)
    }

    // Whether a list or the buffer for the results is under 64.
    fn short(&self, room: usize) -> bool
        ensures { result ≡ short (length self.now.x1.now) (length self.now.x2.now) (length self.now.x3.now) (length self.now.x4.now) room }
    {
        (self.x1.len() < LANES)
            | (self.x2.len() < LANES)
            | (self.x3.len() < LANES)
            | (self.x4.len() < LANES)
            | (room < LANES)
    }

    // Whether an entry of a list is neither a miss nor from -127 to 127.
    fn unsound(&self) -> bool
        requires { (lanes ≤ length self.now.x1.now) × (lanes ≤ length self.now.x2.now) ×
            (lanes ≤ length self.now.x3.now) × (lanes ≤ length self.now.x4.now) }
        ensures { result ≡ any_unsound self.now.x1.now self.now.x2.now self.now.x3.now self.now.x4.now }
    {
        unsound(self.x1) | unsound(self.x2) | unsound(self.x3) | unsound(self.x4)
    }

    // Lays the 64 results down. One index serves all five lists.
    fn fill(&self, results: &mut [i32])
        requires limits { (self.now.first ≤ most_multiplier) × (self.now.second ≤ most_multiplier) × (lanes ≤ length results.old) }
        requires samples { Samples self.now.x1.now × Samples self.now.x2.now × Samples self.now.x3.now × Samples self.now.x4.now }
        ensures { let four = self.now in
            let xs = upto lanes (result_at four.first four.second four.x1.now four.x2.now four.x3.now four.x4.now) in
            results.new ≡ lay xs results.old }
    {
        for lane in 0..LANES {
            results[lane] = result(
                self.first,
                self.second,
                self.x1[lane],
                self.x2[lane],
                self.x3[lane],
                self.x4[lane],
            );
        }
    }
}

// Combines four lists of signed samples: result j is (x1 + first × x2) + second × (x3 + first × x4) of entries j, or the miss where one of
// them is a miss. 64 results are laid at the front of `results`; or refusal 14 for a multiplier, then 13 for a list or the results, then 5
// for an entry.
pub fn combine(
    x1: &[i16],
    x2: &[i16],
    x3: &[i16],
    x4: &[i16],
    first: u32,
    second: u32,
    results: &mut [i32],
) -> Result<(), Refusal>
    ensures { let room = length results.old in
        let o = combine_of first second x1.now x2.now x3.now x4.now room in
        (answered result ≡ mapped (λ xs. tt) o) × (results.new ≡ lay (laid (λ xs. xs) o) results.old) }
{
    let four = Four {
        x1,
        x2,
        x3,
        x4,
        first,
        second,
    };
    if four.unfit() {
        return Err(Refusal::Multiplier);
    }
    if four.short(results.len()) {
        return Err(Refusal::Buffer);
    }
    if four.unsound() {
        return Err(Refusal::Bit);
    }
    four.fill(results);
    Ok(())
}

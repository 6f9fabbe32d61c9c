// Drawing 64 samples in one call: check, slice, start and read (01, "Runs, words, samples"). A program and 64 strings go to 64 samples on
// words of the call's own, so that no batch can inherit another's.
//
// Both operations take any content and any length, and answer as the reading of samples does. Their contracts cite `draw_of` and
// `draw_signed_of` of specs/Drawing.antt; the samples end as they began, with what the outcome lays at their front.
#![tactic(auto)]

ghost use Rattle.std.specs.Prelude.{ℕ, ◌≡◌, ◌≤◌, IfOk, length};
ghost use Rattle.laws.specs.Lay.{lay};
ghost use Rattle.laws.specs.Outcome.{laid, mapped, refused};
ghost use Rattle.fields.specs.Refusal.{answered, number_of};
ghost use Rattle.programs.specs.Limits.{most_outputs};
ghost use Rattle.drawing.specs.Drawing.{after_own, batched, batch_of, draw_of, draw_signed_of, drawn_by};

use checker::check;
use fields::Refusal;
use lanes::{LANES, Sample, read, slice};
use machine::{State, start};
use programs::{Program, read_header};

// The rows of a program that ran, and how many outputs it has left.
#[derive(Clone, Copy)]
struct Batch {
    rows: usize,
    outputs: usize,
}

// The program's own refusal where it has one, and otherwise another.
fn first_refusal(program: &[u8], other: Refusal) -> Refusal
    ensures { refused (number_of result) ≡ after_own program.now (number_of other) }
{
    match check(program) {
        Err(why) => why,
        Ok(_) => other,
    }
}

// Runs a program on 64 strings: the outputs are laid at the front of those of `state`. A sound program is checked once, by its start.
fn run_batch(
    program: &[u8],
    strings: &[u8],
    room: usize,
    state: &mut State,
) -> Result<Batch, Refusal>
    ensures outcome { let o = batch_of program.now strings.now room in
        (answered result ≡ mapped batched o) × (state.new.outputs ≡ lay (laid (λ l. l.outputs) o) state.old.outputs) }
    ensures few { IfOk result (λ b. b.outputs ≤ most_outputs) }
{
    let p = read_header(program)?;
    let mut words = [0u64; Program::INPUTS];
    if let Err(why) = slice(p.inputs, strings, &mut words) {
        return Err(first_refusal(program, why));
    }
    if room < LANES {
        return Err(first_refusal(program, Refusal::Buffer));
    }
    start(
        program,
        &words,
        &mut state.registers,
        &mut state.outputs,
        p.count,
    )?;
    Ok(Batch {
        rows: p.rows,
        outputs: p.outputs,
    })
}

// Draws 64 samples, with a sign or without: runs the program on 64 strings, one after another, of as many bits as its header has inputs,
// and lays the samples at the front of `samples`; or a refusal of the program, 13 or 5 for the strings, then 13 for the samples.
fn draw_with<S: Sample>(
    program: &[u8],
    strings: &[u8],
    sign: u64,
    samples: &mut [S],
) -> Result<(), Refusal>
    ensures { let o = drawn_by S.code program.now strings.now sign (length samples.old) in
        (answered result ≡ mapped (λ xs. tt) o) ×
        (samples.new ≡ lay (laid (λ xs. xs) o) samples.old) }
{
    let mut state = State::fresh();
    let batch = run_batch(program, strings, samples.len(), &mut state)?;
    read(batch.rows, &state.outputs[..batch.outputs], sign, samples)
}

// Draws 64 samples without a sign.
pub fn draw(program: &[u8], strings: &[u8], samples: &mut [u8]) -> Result<(), Refusal>
    ensures { let o = draw_of program.now strings.now (length samples.old) in
        (answered result ≡ mapped (λ xs. tt) o) ×
        (samples.new ≡ lay (laid (λ xs. xs) o) samples.old) }
{
    draw_with(program, strings, 0, samples)
}

// Draws 64 signed samples, with a sign word.
pub fn draw_signed(
    program: &[u8],
    strings: &[u8],
    sign: u64,
    samples: &mut [i16],
) -> Result<(), Refusal>
    ensures { let o = draw_signed_of program.now strings.now sign (length samples.old) in
        (answered result ≡ mapped (λ xs. tt) o) ×
        (samples.new ≡ lay (laid (λ xs. xs) o) samples.old) }
{
    draw_with(program, strings, sign, samples)
}

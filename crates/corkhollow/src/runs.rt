// For C: program files compiled, checked, started and resumed (include/corkhollow.h). Each function returns 0 or the refusal's number, and
// has the contract of the operation that it wraps.
ghost use Rattle.std.specs.Prelude.{◌≡◌};
ghost use Rattle.std.proofs.Math.ListN;
ghost use Rattle.laws.specs.Lay.{lay};
ghost use Rattle.laws.specs.Outcome.{laid};
ghost use Rattle.fields.specs.Refusal.{answered};
ghost use Rattle.compiler.specs.Translation.{compile_of};
ghost use Rattle.checker.specs.Checks.{check_of};
ghost use Rattle.machine.specs.Runs.{resume_of, start_of};
ghost use Rattle.corkhollow.specs.Calls.{count_of, finished_of, outputs_of, position_of, registers_of, returned, told};

use crate::telling::tell;
use fields::Refusal;
use machine::Run;

// Compiles a matrix file into `program`, and tells the program's length.
#[unsafe(no_mangle)]
pub extern "C" fn corkhollow_compile(file: &[u8], program: &mut [u8], length: &mut usize) -> u32
    ensures { let o = compile_of file.now (ListN.length program.old) in
        (result ≡ returned o) ×
        (program.new ≡ lay (laid (λ bytes. bytes) o) program.old) ×
        (length.new ≡ told ListN.length o length.old) }
{
    tell(compiler::compile(file, program), length)
}

// Checks a program file: its registers, inputs, outputs, rows and instructions.
#[unsafe(no_mangle)]
pub extern "C" fn corkhollow_check(
    program: &[u8],
    registers: &mut usize,
    inputs: &mut usize,
    outputs: &mut usize,
    rows: &mut usize,
    count: &mut u32,
) -> u32
    ensures { let o = check_of program.now in
        (result ≡ returned o) ×
        (registers.new ≡ told (λ c. c.program.registers) o registers.old) ×
        (inputs.new ≡ told (λ c. c.program.inputs) o inputs.old) ×
        (outputs.new ≡ told (λ c. c.program.outputs) o outputs.old) ×
        (rows.new ≡ told (λ c. c.program.rows) o rows.old) ×
        (count.new ≡ told (λ c. c.program.count) o count.old) }
{
    match checker::check(program) {
        Ok(p) => {
            *registers = p.registers;
            *inputs = p.inputs;
            *outputs = p.outputs;
            *rows = p.rows;
            *count = p.count;
            0
        }
        Err(why) => u32::from(why),
    }
}

// Tells how a run ended: the position reached, the instructions carried out, and whether it finished.
#[tactic(auto, unfolding(crate::specs::Calls::returned, crate::specs::Calls::told))]
fn tell_run(
    answer: Result<Run, Refusal>,
    position: &mut u32,
    count: &mut u32,
    finished: &mut bool,
) -> u32
    ensures { let o = answered answer in
        (result ≡ returned o) ×
        (position.new ≡ told (λ a. a.position) o position.old) ×
        (count.new ≡ told (λ a. a.count) o count.old) ×
        (finished.new ≡ told (λ a. a.finished) o finished.old) }
{
    match answer {
        Ok(run) => {
            *position = run.position;
            *count = run.count;
            *finished = run.finished;
            0
        }
        Err(why) => u32::from(why),
    }
}

// Starts a program on input words: registers and outputs, the position reached, the instructions carried out, and whether it finished.
#[unsafe(no_mangle)]
pub extern "C" fn corkhollow_start(
    program: &[u8],
    inputs: &[u64],
    registers: &mut [u64],
    outputs: &mut [u64],
    budget: u32,
    position: &mut u32,
    count: &mut u32,
    finished: &mut bool,
) -> u32
    ensures { let o = start_of program.now inputs.now registers.old outputs.old budget in
        (result ≡ returned o) ×
        (registers.new ≡ lay (laid registers_of o) registers.old) ×
        (outputs.new ≡ lay (laid outputs_of o) outputs.old) ×
        (position.new ≡ told position_of o position.old) ×
        (count.new ≡ told count_of o count.old) ×
        (finished.new ≡ told finished_of o finished.old) }
{
    let answer = machine::start(program, inputs, registers, outputs, budget);
    tell_run(answer, position, count, finished)
}

// Resumes a program at a position, with registers and outputs as they are lent; tells what a start tells.
#[unsafe(no_mangle)]
pub extern "C" fn corkhollow_resume(
    program: &[u8],
    inputs: &[u64],
    registers: &mut [u64],
    outputs: &mut [u64],
    position: u32,
    budget: u32,
    position_out: &mut u32,
    count: &mut u32,
    finished: &mut bool,
) -> u32
    ensures { let o = resume_of program.now inputs.now registers.old outputs.old position budget in
        (result ≡ returned o) ×
        (registers.new ≡ lay (laid registers_of o) registers.old) ×
        (outputs.new ≡ lay (laid outputs_of o) outputs.old) ×
        (position_out.new ≡ told position_of o position_out.old) ×
        (count.new ≡ told count_of o count.old) ×
        (finished.new ≡ told finished_of o finished.old) }
{
    let answer = machine::resume(program, inputs, registers, outputs, position, budget);
    tell_run(answer, position_out, count, finished)
}

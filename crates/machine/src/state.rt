// The words that a run works on (01, "Language form for each place": an associated function makes a fresh state).
ghost use Rattle.std.specs.Prelude.{◌≡◌};
ghost use Rattle.programs.specs.Limits.{most_outputs, most_registers};
ghost use Rattle.machine.specs.Fresh.{zeroed};

use programs::Program;

// Registers and outputs, as many as any program has.
#[derive(Drop)]
pub struct State {
    pub registers: [u64; Program::REGISTERS],
    pub outputs: [u64; Program::OUTPUTS],
}

impl State {
    // Cleared registers and outputs.
    pub fn fresh() -> State
        ensures { (result.registers ≡ zeroed most_registers) × (result.outputs ≡ zeroed most_outputs) }
    {
        State {
            registers: [0; Program::REGISTERS],
            outputs: [0; Program::OUTPUTS],
        }
    }
}

// What a program is made of, within which limits, and what a check of one keeps (01, "Files"; 02, order 10).
ghost use Rattle.std.specs.Prelude.{◌≡◌};
ghost use Rattle.programs.specs.Limits.{unset, unwritten, within};
ghost use Rattle.programs.specs.Instructions.{length_of};

use crate::rows::suited;
use fields::outside;

// The numbers of a program's header.
#[derive(Clone, Copy)]
pub struct Program {
    pub registers: usize,
    pub inputs: usize,
    pub outputs: usize,
    pub rows: usize,
    pub count: u32,
}

// The seven instructions: the register to write or the output to set, then what is read.
#[derive(Clone, Copy)]
pub enum Instruction {
    Ones(u16),
    Zero(u16),
    Input(u16, u16),
    Not(u16, u16),
    And(u16, u16, u16),
    Or(u16, u16, u16),
    Output(u16, u16),
}

impl Program {
    // The most registers, inputs, outputs, rows and instructions. Those of inputs and instructions were raised by 02, order 8.
    pub const REGISTERS: usize = 1024;

    pub const INPUTS: usize = 192;

    pub const OUTPUTS: usize = 8;

    pub const ROWS: usize = 128;

    pub const INSTRUCTIONS: u32 = 262_144;

    // The length of a header, and its kind.
    pub const HEADER: usize = 16;

    pub const KIND: usize = 16;

    // Whether the numbers are within the limits.
    pub fn within(self) -> bool
        ensures { result ≡ within self }
    {
        !outside(Program::REGISTERS, self.registers)
            & !outside(Program::INPUTS, self.inputs)
            & !outside(Program::OUTPUTS, self.outputs)
            & suited(self.rows, self.outputs)
            & (self.count <= Program::INSTRUCTIONS)
    }
}

impl Instruction {
    // The kinds as files number them. Numbers, since the loops of the check and of the runs compare those in a file; the enum of the kinds
    // is `Instruction`, which a second one would repeat.
    pub const KIND_ONES: usize = 1;

    pub const KIND_ZERO: usize = 2;

    pub const KIND_INPUT: usize = 3;

    pub const KIND_NOT: usize = 4;

    pub const KIND_AND: usize = 5;

    pub const KIND_OR: usize = 6;

    pub const KIND_OUTPUT: usize = 7;

    // The bytes of an instruction of one operand, of two and of three.
    pub const LENGTH_ONE: usize = 6;

    pub const LENGTH_TWO: usize = 8;

    pub const LENGTH_THREE: usize = 10;

    // The bytes that the instruction takes.
    pub fn length(self) -> usize
        ensures { result ≡ length_of self }
    {
        match self {
            Self::Ones(_) | Self::Zero(_) => Self::LENGTH_ONE,
            Self::Input(..) | Self::Not(..) | Self::Output(..) => Self::LENGTH_TWO,
            Self::And(..) | Self::Or(..) => Self::LENGTH_THREE,
        }
    }
}

// What a check has seen of a program: the registers that instructions wrote, and the outputs that they set.
#[derive(Drop)]
pub struct Seen {
    pub written: [bool; Program::REGISTERS],
    pub set: [bool; Program::OUTPUTS],
}

impl Seen {
    // Nothing seen yet.
    pub fn fresh() -> Seen
        ensures { (result.written ≡ unwritten) × (result.set ≡ unset) }
    {
        Seen {
            written: [false; Program::REGISTERS],
            set: [false; Program::OUTPUTS],
        }
    }
}

// Where a pass over instructions is: the byte of the next one, and how many are still to come.
#[derive(Clone, Copy)]
pub struct Left {
    pub at: usize,
    pub more: usize,
}

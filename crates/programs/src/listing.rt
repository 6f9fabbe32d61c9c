// The text of an instruction, as a listing has it (01, "Checked by hand").
ghost use Rattle.std.specs.Prelude.{Some};
ghost use Rattle.programs.specs.Instructions.{listed};

use crate::description::Instruction;
use std::fmt;

// The name, then the operands, each after a space.
impl fmt::Display for Instruction {
    ghost output = { λ i. Some (listed i) };

    fn fmt<W: fmt::Write>(&self, f: &mut fmt::Formatter<W>) -> fmt::Result {
        match *self {
            Instruction::Ones(to) => write!(f, "ONES {to}"),
            Instruction::Zero(to) => write!(f, "ZERO {to}"),
            Instruction::Input(to, n) => write!(f, "INPUT {to} {n}"),
            Instruction::Not(to, a) => write!(f, "NOT {to} {a}"),
            Instruction::And(to, a, b) => write!(f, "AND {to} {a} {b}"),
            Instruction::Or(to, a, b) => write!(f, "OR {to} {a} {b}"),
            Instruction::Output(o, a) => write!(f, "OUTPUT {o} {a}"),
        }
    }
}

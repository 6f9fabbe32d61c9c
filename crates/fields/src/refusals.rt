// The engine's refusals (01, "The engine's no"; 02). Every operation answers a `Result` with one of them for its error.
ghost use Rattle.std.specs.Prelude.{◌≡◌};
ghost use Rattle.fields.specs.Refusal.{number_of};

// A name for each row of the table, in its order, then those that 02 adds.
#[derive(Clone, Copy, Debug, PartialEq, Eq)]
pub enum Refusal {
    Short,
    Kind,
    Size,
    Length,
    Bit,
    Sum,
    Instruction,
    Operand,
    Unwritten,
    Unset,
    Weightless,
    Position,
    Buffer,
    Multiplier,
    Table,
    Step,
    Signer,
    Cap,
    Reserve,
}

// The table's number for a refusal.
impl From<Refusal> for u32 {
    ghost from_gives = { λ refusal n. n ≡ number_of refusal };

    fn from(refusal: Refusal) -> u32 {
        match refusal {
            Refusal::Short => 1,
            Refusal::Kind => 2,
            Refusal::Size => 3,
            Refusal::Length => 4,
            Refusal::Bit => 5,
            Refusal::Sum => 6,
            Refusal::Instruction => 7,
            Refusal::Operand => 8,
            Refusal::Unwritten => 9,
            Refusal::Unset => 10,
            Refusal::Weightless => 11,
            Refusal::Position => 12,
            Refusal::Buffer => 13,
            Refusal::Multiplier => 14,
            Refusal::Table => 15,
            Refusal::Step => 16,
            Refusal::Signer => 17,
            Refusal::Cap => 18,
            Refusal::Reserve => 19,
        }
    }
}
